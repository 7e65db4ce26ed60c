// What a chunk is answered: the verdict, the places and headers of its frames, and the state after it.
#![tactic(auto)]

ghost use Rattle.std.specs.Prelude.{◌≡◌};
ghost use Rattle.chunk_answer.specs.Answer.{chunk_number, chunk_frame, refused_chunk};

use base_bits::Refusal;
use base_types::{Header, MAX_FRAMES_IN_SUPERFRAME, ReaderState};

#[derive(Clone, Copy)]
pub enum Answer {
    // So many frames.
    Frames(usize),
    Empty,
    // The chunk is shorter than its index.
    Short,
    // This frame, the first at fault, ends past the room.
    Past(usize),
    // This frame's header, the first at fault, is refused.
    Header(usize, Refusal),
}

impl Answer {
    // docs/RULES.md's number, 0 where the chunk is accepted.
    pub fn number(self) -> u8
        ensures { result ≡ chunk_number self }
    {
        match self {
            Answer::Frames(_) => 0,
            Answer::Empty => 1,
            Answer::Short => 2,
            Answer::Past(_) => 3,
            Answer::Header(_, e) => e.number(),
        }
    }

    // The number of the frame at fault, 0 where there is none.
    pub fn frame(self) -> usize
        ensures { result ≡ chunk_frame self }
    {
        match self {
            Answer::Frames(_) => 0,
            Answer::Empty => 0,
            Answer::Short => 0,
            Answer::Past(i) => i,
            Answer::Header(i, _) => i,
        }
    }
}

// On a refusal there are no places, the headers are default ones, and the state is the one before.
#[derive(Clone, Copy)]
pub struct ChunkRead {
    pub answer: Answer,
    pub at: [usize; MAX_FRAMES_IN_SUPERFRAME],
    pub size: [usize; MAX_FRAMES_IN_SUPERFRAME],
    pub headers: [Header; MAX_FRAMES_IN_SUPERFRAME],
    pub state: ReaderState,
}

// The answer to a chunk that is refused.
pub fn refused(answer: Answer, st: ReaderState) -> ChunkRead
    ensures { result ≡ refused_chunk answer st }
{
    ChunkRead {
        answer,
        at: [0usize; MAX_FRAMES_IN_SUPERFRAME],
        size: [0usize; MAX_FRAMES_IN_SUPERFRAME],
        headers: [Header::DEFAULT; MAX_FRAMES_IN_SUPERFRAME],
        state: st,
    }
}
