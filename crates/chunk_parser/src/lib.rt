// A chunk, whole: the places and headers of its frames, and the state after it.
#![tactic(auto)]

ghost use Rattle.std.specs.Prelude.{◌≡◌};
ghost use Rattle.chunk_index.specs.declared.Answer.TheVariants.{Frames};
ghost use Rattle.chunk_index.specs.Split.{split_of};
ghost use Rattle.chunk_parser.specs.Answer.{chunk_of};

use base_types::{Header, MAX_FRAMES_IN_SUPERFRAME, ReaderState};
use chunk_answer::{Answer, ChunkRead};
use chunk_index::Split;

// Each header is read under the state that the frames before it left; the first refusal drops them all.
fn parse_frames(chunk: &[u8], places: Split, count: usize, st: ReaderState) -> ChunkRead
    requires { (places ≡ split_of chunk.now) × (places.answer ≡ Frames count) }
    ensures { result ≡ chunk_of chunk.now st }
{
    let mut headers = [Header::DEFAULT; MAX_FRAMES_IN_SUPERFRAME];
    let mut state = st;
    for i in 0..count {
        let from = places.at[i];
        let to = from + places.size[i];
        match header_parser::parse_frame_header(&chunk[from..to], &mut state) {
            Ok(header) => headers[i] = header,
            Err(e) => return chunk_answer::refused(Answer::Header(i, e), st),
        }
    }
    ChunkRead {
        answer: Answer::Frames(count),
        at: places.at,
        size: places.size,
        headers,
        state,
    }
}

// What the station calls for every chunk that the camera sends.
pub fn parse_chunk(chunk: &[u8], st: ReaderState) -> ChunkRead
    ensures { result ≡ chunk_of chunk.now st }
{
    let places = chunk_index::split_chunk(chunk);
    match places.answer {
        chunk_index::Answer::Frames(count) => parse_frames(chunk, places, count, st),
        chunk_index::Answer::Empty => chunk_answer::refused(Answer::Empty, st),
        chunk_index::Answer::Short => chunk_answer::refused(Answer::Short, st),
        chunk_index::Answer::Past(i) => chunk_answer::refused(Answer::Past(i), st),
    }
}
