// Answers chunks by a line of digests each, for the runs that put millions of them, and for the benchmark of a parse
// and of a segment step. tests/reader/DIGEST.md says what is read and what is printed.
#![tactic(auto)]

ghost use Rattle.std.specs.Prelude.{◌≤◌, ◌≡◌, length};

use base_enums::{BitDepth, ColorRange, ColorSpace};
use base_input::Input;
use base_loop_filter::LoopFilterParams;
use base_parts::{front, rest};
use base_quantization::QuantizationParams;
use base_segmentation::SegmentationParams;
use base_size::FrameSize;
use base_stream::{Ending, Streams};
use base_types::{Header, MAX_FRAMES_IN_SUPERFRAME, ReaderState};
use chunk_answer::{Answer, ChunkRead};
use segment_records::Segmentation;
use std::io::Error;
use test_values::{byte_at, flag_at, signed_byte_at};

// A digest takes in numbers one after the other.
#[derive(Clone, Copy)]
struct Digest(u32);

impl Digest {
    fn take(&mut self, x: u32) {
        self.0 = ((self.0 as u64 * 1000003 + x as u64) % 2147483647) as u32;
    }

    // A place in a chunk or a size, which are never over 65,536.
    fn take_place(&mut self, n: usize) {
        self.take((n % 4294967296) as u32);
    }

    fn take_row(&mut self, row: &[u32]) {
        for x in row {
            self.take(*x);
        }
    }

    // The records, row by row.

    fn take_loop_filter(&mut self, lf: LoopFilterParams) {
        self.take_row(&text_setting_rows::filter_row(lf));
    }

    fn take_quantization(&mut self, q: QuantizationParams) {
        self.take_row(&text_setting_rows::quantization_row(q));
    }

    fn take_segmentation(&mut self, seg: SegmentationParams) {
        self.take_row(&text_setting_rows::segmentation_row(seg));
        self.take_row(&text_setting_rows::flag_row(seg.feature_enabled));
        self.take_row(&text_setting_rows::data_row(seg.feature_data));
    }

    fn take_colors(
        &mut self,
        depth: BitDepth,
        x: bool,
        y: bool,
        space: ColorSpace,
        range: ColorRange,
    ) {
        self.take_row(&text_record_rows::color_row(depth, x, y, space, range));
    }

    fn take_header(&mut self, h: Header) {
        self.take(u32::from(h.profile));
        self.take_colors(
            h.bit_depth,
            h.subsampling_x,
            h.subsampling_y,
            h.color_space,
            h.color_range,
        );
        self.take_row(&text_record_rows::picture_row(h));
        self.take_row(&text_record_rows::source_row(h));
        self.take_loop_filter(h.lf);
        self.take_quantization(h.quant);
        self.take_segmentation(h.seg);
        self.take_row(&text_record_rows::end_row(h));
    }

    fn take_state(&mut self, st: ReaderState) {
        self.take_colors(
            st.bit_depth,
            st.subsampling_x,
            st.subsampling_y,
            st.color_space,
            st.color_range,
        );
        self.take_loop_filter(st.lf);
        self.take_segmentation(st.seg);
        self.take_row(&text_record_rows::slot_row(st.reference_frame_sz));
    }

    fn take_segments(&mut self, segments: &[Segmentation; 8]) {
        for record in segments {
            self.take_row(&text_record_rows::segment_row(*record));
        }
    }
}

fn state_digest(state: ReaderState) -> Digest {
    let mut digest = Digest(0);
    digest.take_state(state);
    digest
}

fn segments_digest(segments: &[Segmentation; 8]) -> Digest {
    let mut digest = Digest(0);
    digest.take_segments(segments);
    digest
}

// The line.

// How many digits a number has.
fn places(n: u64) -> usize
    ensures { result ≤ 20 }
{
    let mut left = n;
    for k in 1..20usize {
        left = left / 10;
        if left == 0 {
            return k;
        }
    }
    20
}

// The lines that aren't written yet, up to `at`.
#[derive(Drop)]
struct Lines<'a> {
    out: &'a mut [u8],
    at: usize,
}

// No line is longer.
const LONGEST_LINE: usize = 64;

impl Lines<'_> {
    // Writes where there may be no room for the next line.
    fn make_room(&mut self, streams: &mut Streams) -> Result<(), Error> {
        let at = self.at;
        self.at = streams.make_room(self.out, at, LONGEST_LINE)?;
        Ok(())
    }

    // Writes what is left to be written.
    fn finish(self, streams: &mut Streams) -> Ending {
        let at = self.at;
        streams.finish(self.out, at, Ending::Done)
    }

    // The number's digits and a byte after them. text_numeral::put_number would copy them once more.
    fn put(&mut self, n: u64, end: u8) {
        self.at = put(self.out, self.at, n, end);
    }

    fn put_line(&mut self, told: Told) {
        self.put(told.answer.number() as u64, b' ');
        self.put(which(told.answer) as u64, b' ');
        self.put(told.frames.0 as u64, b' ');
        self.put(told.segments.0 as u64, b' ');
        self.put(told.state.0 as u64, b'\n');
    }
}

fn put(out: &mut [u8], at: usize, n: u64, end: u8) -> usize {
    let k = places(n);
    if at > out.len() {
        return at;
    }
    if k >= out.len() - at {
        return at;
    }
    let mut left = n;
    for i in (0..k).rev() {
        out[at + i] = (48 + left % 10) as u8;
        left = left / 10;
    }
    out[at + k] = end;
    at + k + 1
}

// How many frames, or which one is at fault.
fn which(answer: Answer) -> usize {
    match answer {
        Answer::Frames(n) => n,
        _ => answer.frame(),
    }
}

// The answers.

// What is remembered from chunk to chunk.
#[derive(Clone, Copy)]
struct Series {
    state: ReaderState,
    segments: [Segmentation; 8],
}

impl Series {
    fn fresh() -> Series {
        Series {
            state: ReaderState::default(),
            segments: [Segmentation::default(); 8],
        }
    }
}

// What is done with a chunk. A benchmark tells the cost of a parse, or of a segment step, from two counts; it keeps
// nothing.
#[derive(Clone, Copy)]
enum Work {
    Answer,
    Parses(u64),
    // On the first header, from the records at hand.
    Steps(u64),
}

// The records after n steps.
fn stepped(header: Header, old: [Segmentation; 8], n: u64) -> [Segmentation; 8] {
    let mut new = old;
    for _ in 0..n {
        let after = Segmentation::update_segmentation(new, header);
        new = after;
    }
    new
}

// What the line of a chunk says, and the state and the records after it.
#[derive(Clone, Copy)]
struct Told {
    answer: Answer,
    frames: Digest,
    segments: Digest,
    state: Digest,
    after: Series,
}

// How many frames there are, never more than eight.
fn frames_of(answer: Answer) -> usize
    ensures { result ≤ 8 }
{
    match answer {
        Answer::Frames(n) => n.min(MAX_FRAMES_IN_SUPERFRAME),
        _ => 0,
    }
}

fn tell(read: ChunkRead, work: Work, old: [Segmentation; 8]) -> Told {
    let mut digest = Digest(0);
    let mut new = old;
    for i in 0..frames_of(read.answer) {
        let header = read.headers[i];
        let after = Segmentation::update_segmentation(new, header);
        new = after;
        digest.take_place(read.at[i]);
        digest.take_place(read.size[i]);
        digest.take_header(header);
        digest.take_segments(&new);
    }
    // The records of which the line has the digest.
    let last = match work {
        Work::Steps(n) => stepped(read.headers[0], old, n),
        _ => new,
    };
    Told {
        answer: read.answer,
        frames: digest,
        segments: segments_digest(&last),
        state: state_digest(read.state),
        after: Series {
            state: read.state,
            segments: new,
        },
    }
}

fn tell_nothing(series: Series) -> Told {
    Told {
        answer: Answer::Frames(0),
        frames: Digest(0),
        segments: segments_digest(&series.segments),
        state: state_digest(series.state),
        after: series,
    }
}

// The last parse is told. Each goes from the state that the one before it left, so that none can be left out.
fn tell_last(s: &[u8], work: Work, series: Series) -> Told {
    let parses = match work {
        Work::Parses(n) => n,
        _ => 1,
    };
    let mut state = series.state;
    for left in (0..parses).rev() {
        let read = chunk_parser::parse_chunk(s, state);
        if left == 0 {
            return tell(read, work, series.segments);
        }
        state = read.state;
    }
    tell_nothing(series)
}

// A number of four bytes, low byte first.
fn number_at(s: &[u8], at: usize) -> Option<u32> {
    let bytes = rest(s, at).first_chunk::<4>()?;
    Some(u32::from_le_bytes(*bytes))
}

// The state that 234 bytes spell.

fn size_at(s: &[u8], at: usize) -> FrameSize {
    let b = rest(s, at);
    FrameSize {
        width: number_at(b, 0).unwrap_or(0),
        height: number_at(b, 4).unwrap_or(0),
    }
}

fn loop_filter_of(s: &[u8]) -> LoopFilterParams {
    LoopFilterParams {
        level: byte_at(s, 0),
        sharpness: byte_at(s, 1),
        delta_enabled: flag_at(s, 2),
        delta_update: flag_at(s, 3),
        update_ref_delta: [flag_at(s, 4), flag_at(s, 5), flag_at(s, 6), flag_at(s, 7)],
        ref_deltas: [
            signed_byte_at(s, 8),
            signed_byte_at(s, 10),
            signed_byte_at(s, 12),
            signed_byte_at(s, 14),
        ],
        update_mode_delta: [flag_at(s, 16), flag_at(s, 17)],
        mode_deltas: [signed_byte_at(s, 18), signed_byte_at(s, 20)],
    }
}

fn tree_probs_of(s: &[u8]) -> [u8; SegmentationParams::SEG_TREE_PROBS] {
    [
        byte_at(s, 2),
        byte_at(s, 3),
        byte_at(s, 4),
        byte_at(s, 5),
        byte_at(s, 6),
        byte_at(s, 7),
        byte_at(s, 8),
    ]
}

fn segmentation_of(s: &[u8]) -> SegmentationParams {
    SegmentationParams {
        enabled: flag_at(s, 0),
        update_map: flag_at(s, 1),
        tree_probs: tree_probs_of(s),
        pred_probs: [byte_at(s, 9), byte_at(s, 10), byte_at(s, 11)],
        temporal_update: flag_at(s, 12),
        update_data: flag_at(s, 13),
        abs_or_delta_update: flag_at(s, 14),
        feature_enabled: test_values::flags_at(s, 15),
        feature_data: test_values::signed_shorts_at(s, 47),
    }
}

fn slots_of(s: &[u8]) -> [FrameSize; ReaderState::REF_FRAMES] {
    [
        size_at(s, 0),
        size_at(s, 8),
        size_at(s, 16),
        size_at(s, 24),
        size_at(s, 32),
        size_at(s, 40),
        size_at(s, 48),
        size_at(s, 56),
    ]
}

fn range_of(full: bool) -> ColorRange {
    if full {
        ColorRange::FullSwing
    } else {
        ColorRange::StudioSwing
    }
}

fn state_of(s: &[u8]) -> ReaderState {
    ReaderState {
        bit_depth: test_values::depth_at(s, 0),
        subsampling_x: flag_at(s, 1),
        subsampling_y: flag_at(s, 2),
        color_space: ColorSpace::of_three_bits((byte_at(s, 3) % 8) as u32),
        color_range: range_of(flag_at(s, 4)),
        lf: loop_filter_of(rest(s, 5)),
        seg: segmentation_of(rest(s, 27)),
        reference_frame_sz: slots_of(rest(s, 170)),
    }
}

// The records of the input.

#[derive(Clone, Copy)]
enum Record<'a> {
    Fresh,
    Chunk(&'a [u8], Work),
    // The state that these bytes spell.
    State(&'a [u8]),
}

const LONGEST_CHUNK: usize = 65536;

// No record is longer.
const LONGEST_RECORD: usize = 9 + LONGEST_CHUNK;

const STATE: usize = 234;

// A chunk behind its length, which stands at a place.
fn chunk_at(s: &[u8], at: usize) -> Option<&[u8]> {
    let size = number_at(s, at)? as usize;
    if size > LONGEST_CHUNK {
        return None;
    }
    let behind = rest(rest(s, at), 4);
    if size > behind.len() {
        return None;
    }
    Some(front(behind, size))
}

// The record at the start of what is at hand, none where it isn't there whole.
fn next_record(s: &[u8]) -> Option<Record<'_>> {
    match byte_at(s, 0) {
        0 => Some(Record::Fresh),
        1 => Some(Record::Chunk(chunk_at(s, 1)?, Work::Answer)),
        3 => Some(Record::State(rest(s, 1).get(..STATE)?)),
        4 => Some(Record::Chunk(chunk_at(s, 5)?, Work::Parses(number_at(s, 1)? as u64))),
        5 => Some(Record::Chunk(chunk_at(s, 5)?, Work::Steps(number_at(s, 1)? as u64))),
        _ => None,
    }
}

impl Record<'_> {
    fn length(self) -> usize {
        match self {
            Record::Fresh => 1,
            Record::Chunk(s, Work::Answer) => s.len().saturating_add(5),
            Record::Chunk(s, _) => s.len().saturating_add(9),
            Record::State(_) => 1 + STATE,
        }
    }
}

// What is remembered after a record. Its line is put where it is a chunk.
fn answer(lines: &mut Lines, record: Record, series: Series) -> Series {
    match record {
        Record::Fresh => Series::fresh(),
        Record::State(s) => {
            // The borrow checker wants an array of a field in a variable first.
            let segments = series.segments;
            Series {
                state: state_of(s),
                segments,
            }
        }
        Record::Chunk(s, work) => {
            let told = tell_last(s, work, series);
            lines.put_line(told);
            match work {
                Work::Answer => told.after,
                _ => series,
            }
        }
    }
}

// With a whole record at hand, if the input has one.
fn filled(streams: &mut Streams, buf: &mut [u8], input: Input) -> Input {
    if input.ended || input.at_hand(buf).len() >= LONGEST_RECORD {
        input
    } else {
        input.refill(streams, buf)
    }
}

// Nothing says that the input ends, so the turns are counted.
fn answer_all(streams: &mut Streams, buf: &mut [u8], out: &mut [u8]) -> Ending {
    let mut input = Input::new();
    let mut lines = Lines { out, at: 0 };
    let mut series = Series::fresh();
    for _ in 0..u64::MAX {
        if let Err(why) = lines.make_room(streams) {
            return Ending::Unwritten(why);
        }
        input = filled(streams, buf, input);
        if input.failed {
            return Ending::Said;
        }
        let Some(record) = next_record(input.at_hand(buf)) else {
            break;
        };
        let after = answer(&mut lines, record, series);
        series = after;
        input = input.used(record.length());
    }
    lines.finish(streams)
}

// Four times what a record may take, so that most of each read is new.
fn input_buffer() -> [u8; 262144]
    ensures { 262144 ≡ length result }
{
    [0; 262144]
}

fn main(rt: HostRuntime) {
    let mut streams = Streams::new(rt.stdin(), rt.stdout(), rt.stderr());
    let mut input = input_buffer();
    let mut out = io::large_buffer();
    let ending = answer_all(&mut streams, &mut input, &mut out);
    ending.say(&streams);
}
