// The lines of a listing besides those of frames. Each is put as far as there is room for it.
#![tactic(auto)]

ghost use Rattle.base_bytes.specs.Put.{Written};
ghost use Rattle.text_line.specs.Line.{line_text};
ghost use Rattle.text_listing.specs.Lines.{column_line, refused_line, file_refused_line, last_line};

// The names of the columns.
pub fn column_line(out: &mut [u8], at: usize) -> usize
    ensures { Written out.old at (line_text column_line) result out.new }
{
    base_bytes::put(
        out,
        at,
        b"chunk frame kind at size width height refresh hdr\n",
    )
}

// A chunk that is refused, with docs/RULES.md's number and the number of the frame at fault.
pub fn refused_line(out: &mut [u8], at: usize, chunk: u64, number: u8, frame: usize) -> usize
    ensures { Written out.old at (line_text (refused_line chunk number frame)) result out.new }
{
    let a = text_numeral::put_number(out, at, chunk);
    let b = base_bytes::put(out, a, b" refused ");
    let c = text_numeral::put_number(out, b, number as u64);
    let d = base_bytes::put(out, c, b" frame ");
    text_line::put_last(out, d, frame as u64)
}

// A file that is refused, with docs/RULES.md's number.
pub fn file_refused_line(out: &mut [u8], at: usize, number: u8) -> usize
    ensures { Written out.old at (line_text (file_refused_line number)) result out.new }
{
    let a = base_bytes::put(out, at, b"file refused ");
    text_line::put_last(out, a, number as u64)
}

// How many chunks there were, and how many of them were refused.
pub fn last_line(out: &mut [u8], at: usize, chunks: u64, refused: u64) -> usize
    ensures { Written out.old at (line_text (last_line chunks refused)) result out.new }
{
    let a = text_numeral::put_number(out, at, chunks);
    let b = base_bytes::put(out, a, b" chunks ");
    let c = text_numeral::put_number(out, b, refused);
    base_bytes::put(out, c, b" refused\n")
}
