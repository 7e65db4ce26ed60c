// A single frame of a chunk, at an offset and of a size.
#![tactic(auto)]

ghost use Rattle.std.specs.Prelude.{◌≡◌, OnErr};
ghost use Rattle.chunk_frame.specs.Place.{frame_told, frame_placed};

use base_types::{Header, ReaderState};
use header_verdict::FrameRefusal;

// The frame of a chunk at an offset, of a size, under a remembered state, which it changes if it accepts it.
pub fn parse_frame(
    chunk: &[u8],
    offset: usize,
    size: usize,
    st: &mut ReaderState,
) -> Result<Header, FrameRefusal>
    ensures told { frame_told st.new result ≡ frame_placed chunk.now offset size st.old }
    ensures kept { OnErr result (st.new ≡ st.old) }
{
    if offset > chunk.len() || size > chunk.len() - offset {
        return Err(FrameRefusal::Outside);
    }
    Ok(header_parser::parse_frame_header(&chunk[offset..offset + size], st)?)
}
