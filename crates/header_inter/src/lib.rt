// The picture of an inter frame.
#![tactic(auto)]

ghost use Rattle.std.specs.Prelude.{◌≡◌};
ghost use Rattle.base_syntax.specs.Reader.{over};
ghost use Rattle.header_inter.specs.Inter.{read_inter, inter_of};

use base_bits::{Cursor, Read};
use base_size::FrameSize;
use header_picture::Picture;
use part_color::Color;

// An inter frame has the colour that is remembered, and may take its size from a remembered one.
pub fn parse_inter(
    s: &[u8],
    c: Cursor,
    color: Color,
    slots: [FrameSize; FrameSize::REMEMBERED],
) -> Read<Picture>
    ensures { result ≡ over (inter_of color slots) (read_inter s.now c.at) }
{
    let (sources, c) = part_refs::parse_sources(s, c)?;
    let (sizes, c) = part_size_with_refs::parse_frame_size_with_refs(s, c, sources.refs, slots)?;
    let (motion, c) = part_motion::parse_motion(s, c)?;
    let picture = Picture {
        color,
        sources,
        sizes,
        motion,
    };
    Ok((picture, c))
}
