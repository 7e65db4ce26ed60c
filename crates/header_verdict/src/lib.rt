// Why a frame of a chunk is refused, and the numbers of what is answered.
#![tactic(auto)]

ghost use Rattle.std.specs.Prelude.{◌≡◌};
ghost use Rattle.header_verdict.specs.declared.FrameRefusal.TheVariants.{Header};
ghost use Rattle.header_verdict.specs.Verdict.{
  verdict_number,
  verdict_of,
  place_number,
  place_frame,
  place_of,
};

use base_bits::Refusal;

// docs/RULES.md's number, and 0 for what is accepted.
pub fn header_number<T>(answer: &Result<T, Refusal>) -> u8
    ensures { result ≡ verdict_number (verdict_of answer.now) }
{
    match answer {
        Ok(_) => 0,
        Err(e) => e.number(),
    }
}

// Why a frame is refused: it lies outside its chunk, or its header says why.
#[derive(Clone, Copy, Debug, PartialEq, Eq)]
pub enum FrameRefusal {
    Outside,
    Header(Refusal),
}

impl From<Refusal> for FrameRefusal {
    ghost from_gives = { λ e r. r ≡ Header e };

    fn from(e: Refusal) -> FrameRefusal {
        FrameRefusal::Header(e)
    }
}

// The same of a frame, with 3 for one that lies outside its chunk.
pub fn frame_number<T>(answer: &Result<T, FrameRefusal>) -> u8
    ensures { result ≡ place_number (place_of answer.now) }
{
    match answer {
        Ok(_) => header_number::<()>(&Ok(())),
        Err(FrameRefusal::Outside) => 3,
        Err(FrameRefusal::Header(e)) => header_number::<()>(&Err(*e)),
    }
}

// The frame number that comes with it: a single frame is frame 0.
pub fn frame_index<T>(answer: &Result<T, FrameRefusal>) -> usize
    ensures { result ≡ place_frame (place_of answer.now) }
{
    match answer {
        Err(FrameRefusal::Outside) => 0,
        _ => 0,
    }
}
