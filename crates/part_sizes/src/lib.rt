// frame_size() and render_size().
#![tactic(auto)]

ghost use Rattle.std.specs.Prelude.{◌≡◌};
ghost use Rattle.base_syntax.specs.Reader.{over};
ghost use Rattle.part_sizes.specs.Size.{SizeIs, SizeOrIs};
ghost use Rattle.grammar_tables.specs.Reading.{read_render};
ghost use Rattle.part_sizes.specs.Sizes.{read_sizes, with_render, sizes_of};

use base_bits::{Cursor, Read};
use base_size::FrameSize;

// A size. Its two fields have the names that the caller's table gives them.
fn parse_frame_size(s: &[u8], c: Cursor) -> Read<FrameSize>
    ensures { SizeIs s.now c.at result }
{
    let (width, c) = part_field::read_field(s, c, 16)?;
    let (height, c) = part_field::read_field(s, c, 16)?;
    let size = FrameSize {
        width: width + 1,
        height: height + 1,
    };
    Ok((size, c))
}

// A size that is there only sometimes: another where it isn't, and nothing is read.
fn size_or(s: &[u8], c: Cursor, there: bool, other: FrameSize) -> Read<FrameSize>
    ensures { SizeOrIs there other s.now c.at result }
{
    if there {
        parse_frame_size(s, c)
    } else {
        Ok((other, c))
    }
}

#[derive(Clone, Copy)]
pub struct Render {
    pub different: bool,
    pub size: FrameSize,
}

#[derive(Clone, Copy)]
pub struct Sizes {
    pub frame: FrameSize,
    pub render: Render,
}

// A frame's size, and the render size that is read after it.
pub fn parse_render_size(s: &[u8], c: Cursor, frame: FrameSize) -> Read<Sizes>
    ensures { result ≡ over (with_render frame) (read_render s.now c.at) }
{
    let (flag, c) = part_field::read_field(s, c, 1)?;
    let different = flag == 1;
    let (size, c) = size_or(s, c, different, frame)?;
    let render = Render { different, size };
    Ok((Sizes { frame, render }, c))
}

// The sizes of a key frame or an intra-only frame.
pub fn parse_sizes(s: &[u8], c: Cursor) -> Read<Sizes>
    ensures { result ≡ over sizes_of (read_sizes s.now c.at) }
{
    let (frame, c) = parse_frame_size(s, c)?;
    parse_render_size(s, c, frame)
}
