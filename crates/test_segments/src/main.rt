// Reads cases from standard input and prints the eight segment records after each, a line for each record. A case
// starts with a byte: 0, the old records are those that the last case left; 1, eight old records follow; 2, the last
// case's records stay, so that the cost of a step can be told; 3, they stay and the four scales of each segment are
// printed instead. Then come the fields of a header that the records follow from, spelled as `test_values` has it.
// What lacks at the input's end is 255.
#![tactic(auto)]

use base_loop_filter::LoopFilterParams;
use base_parts::rest;
use base_quantization::QuantizationParams;
use base_segmentation::SegmentationParams;
use base_stream::{Ending, Streams, Unfilled};
use base_types::Header;
use segment_records::Segmentation;
use std::io::Error;
use test_values::{byte_at, flag_at, signed_byte_at, signed_short_at};

// The values of a case.

fn levels_of(s: &[u8]) -> [u8; 8] {
    [
        byte_at(s, 0),
        byte_at(s, 1),
        byte_at(s, 2),
        byte_at(s, 3),
        byte_at(s, 4),
        byte_at(s, 5),
        byte_at(s, 6),
        byte_at(s, 7),
    ]
}

fn segment_of(s: &[u8]) -> Segmentation {
    Segmentation {
        lvl_lookup: levels_of(s),
        luma_ac_quant_scale: signed_short_at(s, 8),
        luma_dc_quant_scale: signed_short_at(s, 11),
        chroma_ac_quant_scale: signed_short_at(s, 14),
        chroma_dc_quant_scale: signed_short_at(s, 17),
        reference_frame_enabled: flag_at(s, 20),
        reference_frame: signed_short_at(s, 21),
        reference_skip_enabled: flag_at(s, 24),
    }
}

fn segments_of(s: &[u8]) -> [Segmentation; 8] {
    [
        segment_of(s),
        segment_of(rest(s, 25)),
        segment_of(rest(s, 50)),
        segment_of(rest(s, 75)),
        segment_of(rest(s, 100)),
        segment_of(rest(s, 125)),
        segment_of(rest(s, 150)),
        segment_of(rest(s, 175)),
    ]
}

fn loop_filter_of(s: &[u8]) -> LoopFilterParams {
    let mut lf = LoopFilterParams::default();
    lf.level = byte_at(s, 0);
    lf.delta_enabled = flag_at(s, 1);
    lf.ref_deltas = [
        signed_byte_at(s, 2),
        signed_byte_at(s, 4),
        signed_byte_at(s, 6),
        signed_byte_at(s, 8),
    ];
    lf.mode_deltas = [signed_byte_at(s, 10), signed_byte_at(s, 12)];
    lf
}

fn quantization_of(s: &[u8]) -> QuantizationParams {
    QuantizationParams {
        base_q_idx: byte_at(s, 0),
        delta_q_y_dc: signed_byte_at(s, 1),
        delta_q_uv_dc: signed_byte_at(s, 3),
        delta_q_uv_ac: signed_byte_at(s, 5),
    }
}

fn segmentation_of(s: &[u8]) -> SegmentationParams {
    let mut seg = SegmentationParams::default();
    seg.enabled = flag_at(s, 0);
    seg.abs_or_delta_update = flag_at(s, 1);
    seg.feature_enabled = test_values::flags_at(s, 2);
    seg.feature_data = test_values::signed_shorts_at(s, 34);
    seg
}

// The fields that the records don't follow from are the default header's.
fn header_of(s: &[u8]) -> Header {
    let mut header = Header::default();
    header.bit_depth = test_values::depth_at(s, 0);
    header.lf = loop_filter_of(rest(s, 1));
    header.quant = quantization_of(rest(s, 15));
    header.seg = segmentation_of(rest(s, 22));
    header
}

// The text that isn't written yet, up to `at`.
#[derive(Drop)]
struct Text<'a> {
    out: &'a mut [u8],
    at: usize,
}

// Eight lines take less: at most fifteen numbers with a space before each.
const ROOM: usize = 4096;

impl Text<'_> {
    // Writes where there may be no room for the next case's lines.
    fn make_room(&mut self, streams: &mut Streams) -> Result<(), Error> {
        let at = self.at;
        self.at = streams.make_room(self.out, at, ROOM)?;
        Ok(())
    }

    // Writes what is left to be written.
    fn finish(self, streams: &mut Streams) -> Ending {
        let at = self.at;
        streams.finish(self.out, at, Ending::Done)
    }

    fn put(&mut self, bytes: &[u8]) {
        self.at = base_bytes::put(self.out, self.at, bytes);
    }

    fn put_plain(&mut self, n: u64) {
        self.put(b" ");
        self.at = text_numeral::put_number(self.out, self.at, n);
    }

    // A number with a sign, as it is lifted.
    fn put_lifted(&mut self, n: u64) {
        self.put(b" ");
        self.at = text_signed::put_lowered(self.out, self.at, n);
    }

    // Of a record's row the scales and the reference have a sign.
    fn put_segment(&mut self, record: Segmentation) {
        let row = text_record_rows::segment_row(record);
        for (i, n) in row.iter().enumerate() {
            match i {
                8..=11 | 13 => self.put_lifted(*n as u64),
                _ => self.put_plain(*n as u64),
            }
        }
        self.put(b"\n");
    }

    fn put_segments(&mut self, segments: &[Segmentation]) {
        for record in segments {
            self.put_segment(*record);
        }
    }

    fn put_scale(&mut self, n: i16) {
        self.put_lifted(text_signed::lift(n) as u64);
    }

    // The four scales, each asked for by itself, in a record's order.
    fn put_scales(&mut self, h: Header, segment_id: u8) {
        for luma in [true, false] {
            self.put_scale(segment_quant::get_ac_quant(
                h.bit_depth,
                h.quant,
                h.seg,
                segment_id,
                luma,
            ));
            self.put_scale(segment_quant::get_dc_quant(
                h.bit_depth,
                h.quant,
                h.seg,
                segment_id,
                luma,
            ));
        }
        self.put(b"\n");
    }
}

const HEADER: usize = 152;

const RECORDS: usize = 200;

// A case: its first byte and what follows it.
#[derive(Clone, Copy)]
struct Case {
    kind: u8,
    fields: [u8; 352],
}

// The bytes behind a case's first.
fn length_of(kind: u8) -> usize {
    match kind {
        1 => RECORDS + HEADER,
        0 | 2 | 3 => HEADER,
        _ => 0,
    }
}

fn read_case(streams: &mut Streams) -> Result<Case, Unfilled> {
    let mut kind = [255u8; 1];
    streams.fill(&mut kind, 0)?;
    let kind = kind[0];
    let mut fields = [255u8; 352];
    match streams.fill_front(&mut fields, length_of(kind)) {
        Err(Unfilled::Failed(at, why)) => Err(Unfilled::Failed(at, why)),
        _ => Ok(Case { kind, fields }),
    }
}

// Answers a case, and answers the records after it.
fn answer(text: &mut Text, kind: u8, s: &[u8], last: [Segmentation; 8]) -> [Segmentation; 8] {
    if kind == 3 {
        let header = header_of(s);
        for i in 0..8u8 {
            text.put_scales(header, i);
        }
        return last;
    }
    let segments = match kind {
        0 => Segmentation::update_segmentation(last, header_of(s)),
        1 => Segmentation::update_segmentation(segments_of(s), header_of(rest(s, RECORDS))),
        _ => last,
    };
    text.put_segments(&segments);
    segments
}

// Nothing says that the input ends, so the cases are counted.
fn answer_all(streams: &mut Streams, out: &mut [u8]) -> Ending {
    let mut text = Text { out, at: 0 };
    let mut segments = [Segmentation::default(); 8];
    for _ in 0..u64::MAX {
        if let Err(why) = text.make_room(streams) {
            return Ending::Unwritten(why);
        }
        let case = match read_case(streams) {
            Err(Unfilled::Failed(_, why)) => return Ending::Unread(why),
            Err(Unfilled::Ended(_)) => break,
            Ok(case) => case,
        };
        if case.kind > 3 {
            break;
        }
        let after = answer(&mut text, case.kind, &case.fields, segments);
        segments = after;
    }
    text.finish(streams)
}

fn main(rt: HostRuntime) {
    let mut streams = Streams::new(rt.stdin(), rt.stdout(), rt.stderr());
    let mut out = io::large_buffer();
    let ending = answer_all(&mut streams, &mut out);
    ending.say(&streams);
}
