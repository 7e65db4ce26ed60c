// Puts what a tracer yields as text, into a buffer with room for it.
#![tactic(auto)]

ghost use Rattle.std.specs.Prelude.{[], ◌∷◌};
ghost use Rattle.base_bytes.specs.Put.{Written};
ghost use Rattle.listing_items.specs.Items.{frame, file_refused, last};
ghost use Rattle.listing_printer.specs.Text.{item_text, items_text};
ghost use Rattle.listing_tracer.specs.Traced.{items_in};

use base_types::Header;
use listing_tracer::{Traced, Yields};
use segment_records::Segmentation;

// A frame's line, its header and the segment records after it.
pub fn put_frame(
    out: &mut [u8],
    at: usize,
    chunk: u64,
    number: usize,
    place: usize,
    size: usize,
    h: Header,
    records: [Segmentation; 8],
) -> usize
    ensures { Written out.old at (item_text (frame chunk number place size h records)) result out.new }
{
    let next = text_frame_line::frame_line(out, at, chunk, number, place, size, h);
    let next = text_records::put_header(out, next, h);
    text_records::put_segments(out, next, records)
}

fn put_cut(out: &mut [u8], at: usize, chunks: u64, refused: u64) -> usize
    ensures { Written out.old at (items_text (file_refused 8 ∷ last chunks refused ∷ [])) result out.new }
{
    let next = text_listing::file_refused_line(out, at, 8);
    text_listing::last_line(out, next, chunks, refused)
}

pub fn put_item(out: &mut [u8], at: usize, traced: Traced) -> usize
    ensures { Written out.old at (items_text (items_in traced)) result out.new }
{
    let yields = traced.yields;
    let header = traced.header;
    let records = traced.tracer.records;
    match yields {
        Yields::Columns => text_listing::column_line(out, at),
        Yields::Frame(chunk, number, place, size) => put_frame(
            out, at, chunk, number, place, size, header, records,
        ),
        Yields::Refused(chunk, number, frame) => text_listing::refused_line(
            out, at, chunk, number, frame,
        ),
        Yields::NoFile => text_listing::file_refused_line(out, at, 7),
        Yields::Cut(chunks, refused) => put_cut(out, at, chunks, refused),
        Yields::Last(chunks, refused) => text_listing::last_line(out, at, chunks, refused),
        Yields::More => at,
        Yields::Again => at,
        Yields::Over => at,
    }
}
