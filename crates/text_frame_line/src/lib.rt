// The line of a frame, put as far as there is room for it.
#![tactic(auto)]

ghost use Rattle.std.specs.Prelude.{◌≡◌, ◌++◌};
ghost use Rattle.text_numeral.specs.Ascii.{ascii};
ghost use Rattle.text_numeral.specs.Numeral.{numeral};
ghost use Rattle.base_bytes.specs.Put.{Written};
ghost use Rattle.text_line.specs.Line.{line_text};
ghost use Rattle.text_frame_line.specs.Frame.{frame_kind, kind_word, frame_line};

use base_enums::FrameType;
use base_types::Header;

#[derive(Clone, Copy)]
pub enum Kind {
    Key,
    Intra,
    Inter,
    Show,
}

impl Kind {
    // What a frame's header says that it is.
    fn of(header: Header) -> Kind
        ensures { result ≡ frame_kind header }
    {
        if header.show_existing_frame {
            return Kind::Show;
        }
        match header.frame_type {
            FrameType::KeyFrame => Kind::Key,
            FrameType::InterFrame if header.intra_only => Kind::Intra,
            FrameType::InterFrame => Kind::Inter,
        }
    }
}

fn put_kind(out: &mut [u8], at: usize, kind: Kind) -> usize
    ensures { Written out.old at (ascii (kind_word kind)) result out.new }
{
    match kind {
        Kind::Key => base_bytes::put(out, at, b"key"),
        Kind::Intra => base_bytes::put(out, at, b"intra"),
        Kind::Inter => base_bytes::put(out, at, b"inter"),
        Kind::Show => base_bytes::put(out, at, b"show"),
    }
}

// `C I kind `
fn put_frame(out: &mut [u8], at: usize, chunk: u64, frame: u64, kind: Kind) -> usize
    ensures { Written out.old at ((numeral chunk ++ ascii " ") ++ ((numeral frame ++ ascii " ") ++ (ascii (kind_word kind) ++ ascii " "))) result out.new }
{
    let a = text_line::put_field(out, at, chunk);
    let b = text_line::put_field(out, a, frame);
    let c = put_kind(out, b, kind);
    base_bytes::put(out, c, b" ")
}

// `at size width height `
fn put_sizes(out: &mut [u8], at: usize, place: u64, size: u64, width: u32, height: u32) -> usize
    ensures { Written out.old at ((numeral place ++ ascii " ") ++ ((numeral size ++ ascii " ") ++ ((numeral width ++ ascii " ") ++ (numeral height ++ ascii " ")))) result out.new }
{
    let a = text_line::put_field(out, at, place);
    let b = text_line::put_field(out, a, size);
    let c = text_line::put_field(out, b, width as u64);
    text_line::put_field(out, c, height as u64)
}

// `refresh hdr`, and the line's end.
fn put_header(out: &mut [u8], at: usize, refresh: u8, hdr: u16) -> usize
    ensures { Written out.old at ((numeral refresh ++ ascii " ") ++ (numeral hdr ++ ascii "\n")) result out.new }
{
    let next = text_line::put_field(out, at, refresh as u64);
    text_line::put_last(out, next, hdr as u64)
}

// A frame of an accepted chunk, with its place and size in the chunk and its header.
pub fn frame_line(
    out: &mut [u8],
    at: usize,
    chunk: u64,
    frame: usize,
    place: usize,
    size: usize,
    header: Header,
) -> usize
    ensures { Written out.old at (line_text (frame_line chunk frame place size header)) result out.new }
{
    let a = put_frame(out, at, chunk, frame as u64, Kind::of(header));
    let b = put_sizes(
        out,
        a,
        place as u64,
        size as u64,
        header.width,
        header.height,
    );
    put_header(
        out,
        b,
        header.refresh_frame_flags,
        header.uncompressed_header_size_in_bytes,
    )
}
