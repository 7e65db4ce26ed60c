// Prints the long form of the listing: of the IVF file on standard input, or, with the argument `series`, of series of
// chunks with the state after each, for tests/reader.
// A series is records: a byte 0 starts from a fresh state; a byte 1, four bytes of length, low byte first, and as
// many bytes are a chunk; a byte 3, eight bytes of offset, eight of size, and a chunk's length and bytes are a single
// frame of it, which is printed as the only frame of a chunk.
// What a file's long form is made of `listing_tracer` decides: this program reads, hands in what has arrived, prints each
// item by its form, and writes.
#![tactic(auto)]

ghost use Rattle.std.specs.Prelude.{◌≡◌, ◌++◌, length};

use base_enums::{BitDepth, ColorRange, ColorSpace, FrameType};
use base_input::Input;
use base_loop_filter::LoopFilterParams;
use base_parts::{front, rest};
use base_quantization::QuantizationParams;
use base_segmentation::SegmentationParams;
use base_stream::{Ending, Streams, Unfilled};
use base_types::{Header, MAX_FRAMES_IN_SUPERFRAME, ReaderState};
use chunk_answer::Answer;
use listing_tracer::{Traced, Tracer, Yields};
use segment_records::Segmentation;
use std::env::{Env, FillError};
use std::io::Error;

// Everything is printed by its form: the text, with marks in it. # stands for a number, % for one with a sign that is
// lifted as in `text_signed`, ? for true or false, <a|b> for one of some words, and @ ends a form. One text holds all
// forms; `trace_by_forms` hands it on, since what a text costs to prove grows with the calls beside it.

// The forms at which printing starts, by their numbers.
#[derive(Clone, Copy)]
enum Form {
    Refusal = 0,
    Frame = 1,
    Filter = 2,
    Segmentation = 4,
    State = 7,
    Slots = 8,
    Columns = 9,
    FileRefused = 10,
    Last = 11,
}

fn is_mark(c: u8) -> bool {
    matches!(c, b'#' | b'%' | b'?' | b'<' | b'|' | b'>' | b'@')
}

// The text before the first mark, and what stands from the mark on.
fn next_mark(form: &[u8]) -> (&[u8], &[u8])
    ensures { result.0.now ++ result.1.now ≡ form.now }
{
    let n = form.iter().position(|c| is_mark(*c)).unwrap_or(form.len());
    (&form[..n], &form[n..])
}

// What stands behind a mark.
fn behind(form: &[u8]) -> &[u8] {
    rest(form, 1)
}

// What stands behind the first > there.
fn behind_words(form: &[u8]) -> &[u8] {
    let n = form.iter().position(|c| *c == b'>').unwrap_or(form.len());
    behind(&form[n..])
}

// The n-th form, counted from 0, and those behind it.
fn nth_form(forms: &[u8], n: usize) -> &[u8] {
    let mut left = forms;
    for _ in 0..n {
        let n = left.iter().position(|c| *c == b'@').unwrap_or(left.len());
        left = behind(&left[n..]);
    }
    left
}

// A frame's numbers, and its place and size in its chunk.
#[derive(Clone, Copy)]
struct Place {
    chunk: u64,
    frame: usize,
    at: usize,
    size: usize,
}

// The text that isn't written yet, up to `at` in the output buffer, and what is left of the forms that it is printed by.
#[derive(Drop)]
struct Page<'a> {
    forms: &'a [u8],
    form: &'a [u8],
    out: &'a mut [u8],
    at: usize,
}

// What is printed between two looks at the room takes less: a frame's line, header and eight segment lines at most
// 6,288 bytes, with twenty digits to every number, a state's line 1,981, the last lines 91.
const ROOM: usize = 16384;

impl Page<'_> {
    // Writes where there may be no room for what comes next.
    fn make_room(&mut self, streams: &mut Streams) -> Result<(), Error> {
        let at = self.at;
        self.at = streams.make_room(self.out, at, ROOM)?;
        Ok(())
    }

    // Writes what is left to be written.
    fn finish(self, streams: &mut Streams, ending: Ending) -> Ending {
        let at = self.at;
        streams.finish(self.out, at, ending)
    }

    fn put(&mut self, bytes: &[u8]) {
        self.at = base_bytes::put(self.out, self.at, bytes);
    }

    fn start(&mut self, form: Form) {
        self.form = nth_form(self.forms, form as usize);
    }

    // Prints the text before the next mark.
    fn put_text(&mut self) {
        let (text, form) = next_mark(self.form);
        self.put(text);
        self.form = form;
    }

    // The text before the form's end, which is then passed.
    fn end(&mut self) {
        self.put_text();
        self.form = behind(self.form);
    }

    // The k-th of the words, counted from 0, whose < is next.
    fn put_word(&mut self, k: u64) {
        let mut word = behind(self.form);
        for _ in 0..k {
            let (_, next) = next_mark(word);
            word = behind(next);
        }
        let (text, next) = next_mark(word);
        self.put(text);
        self.form = behind_words(next);
    }

    // The text before the next mark, and a value by the mark.
    fn put_value(&mut self, n: u64) {
        self.put_text();
        let form = self.form;
        match byte_of(form) {
            b'#' => self.at = text_numeral::put_number(self.out, self.at, n),
            b'%' => self.at = text_signed::put_lowered(self.out, self.at, n),
            b'?' => self.put(if n == 1 {
                b"true".as_slice()
            } else {
                b"false".as_slice()
            }),
            b'<' => {
                self.put_word(n);
                return;
            }
            _ => return,
        }
        self.form = behind(form);
    }

    fn put_row(&mut self, row: &[u32]) {
        for n in row {
            self.put_value(*n as u64);
        }
    }

    // The records, row by row.

    fn put_colors(
        &mut self,
        depth: BitDepth,
        x: bool,
        y: bool,
        space: ColorSpace,
        range: ColorRange,
    ) {
        self.put_row(&text_record_rows::color_row(depth, x, y, space, range));
    }

    fn put_loop_filter(&mut self, lf: LoopFilterParams) {
        self.put_row(&text_setting_rows::filter_row(lf));
        self.end();
    }

    fn put_quantization(&mut self, q: QuantizationParams) {
        self.put_row(&text_setting_rows::quantization_row(q));
        self.end();
    }

    fn put_segmentation(&mut self, seg: SegmentationParams) {
        self.put_row(&text_setting_rows::segmentation_row(seg));
        self.put_row(&text_setting_rows::flag_row(seg.feature_enabled));
        self.put_row(&text_setting_rows::data_row(seg.feature_data));
        self.end();
    }

    fn put_header(&mut self, h: Header) {
        self.put_value(u32::from(h.profile) as u64);
        self.put_colors(
            h.bit_depth,
            h.subsampling_x,
            h.subsampling_y,
            h.color_space,
            h.color_range,
        );
        self.put_row(&text_record_rows::picture_row(h));
        self.put_row(&text_record_rows::source_row(h));
        self.end();
        self.put_loop_filter(h.lf);
        self.put_quantization(h.quant);
        self.put_segmentation(h.seg);
        self.put_row(&text_record_rows::end_row(h));
        self.end();
    }

    fn put_state(&mut self, st: ReaderState) {
        self.start(Form::State);
        self.put_colors(
            st.bit_depth,
            st.subsampling_x,
            st.subsampling_y,
            st.color_space,
            st.color_range,
        );
        self.end();
        self.start(Form::Filter);
        self.put_loop_filter(st.lf);
        self.start(Form::Segmentation);
        self.put_segmentation(st.seg);
        self.start(Form::Slots);
        self.put_row(&text_record_rows::slot_row(st.reference_frame_sz));
        self.end();
    }

    // A line for each.
    fn put_segments(&mut self, segments: &[Segmentation; 8]) {
        let form = self.form;
        for (i, record) in segments.iter().enumerate() {
            self.form = form;
            self.put_value(i as u64);
            self.put_row(&text_record_rows::segment_row(*record));
            self.end();
        }
    }

    // The answers.

    // A frame's line, its header and the segment records after it.
    fn put_frame(&mut self, place: Place, h: Header, segments: &[Segmentation; 8]) {
        self.start(Form::Frame);
        self.put_value(place.chunk);
        self.put_value(place.frame as u64);
        self.put_value(kind(h));
        self.put_value(place.at as u64);
        self.put_value(place.size as u64);
        self.put_value(h.width as u64);
        self.put_value(h.height as u64);
        self.put_value(h.refresh_frame_flags as u64);
        self.put_value(h.uncompressed_header_size_in_bytes as u64);
        self.put_header(h);
        self.put_segments(segments);
    }

    fn put_refusal(&mut self, chunk: u64, refusal: u8, frame: usize) {
        self.start(Form::Refusal);
        self.put_value(chunk);
        self.put_value(refusal as u64);
        self.put_value(frame as u64);
        self.end();
    }

    fn put_columns(&mut self) {
        self.start(Form::Columns);
        self.end();
    }

    fn put_file_refused(&mut self, number: u64) {
        self.start(Form::FileRefused);
        self.put_value(number);
        self.end();
    }

    fn put_last(&mut self, chunks: u64, refused: u64) {
        self.start(Form::Last);
        self.put_value(chunks);
        self.put_value(refused);
        self.end();
    }
}

// The mark at which a form starts, at the forms' end that of a form's end.
fn byte_of(form: &[u8]) -> u8 {
    form.first().copied().unwrap_or(b'@')
}

fn kind(h: Header) -> u64 {
    if h.show_existing_frame {
        return 3;
    }
    match h.frame_type {
        FrameType::KeyFrame => 0,
        FrameType::InterFrame => { if h.intra_only { 1 } else { 2 } }
    }
}

// What is remembered from chunk to chunk of a series: the number of the next one, the reader's state and the segment
// records.
#[derive(Clone, Copy)]
struct Series {
    chunk: u64,
    state: ReaderState,
    segments: [Segmentation; 8],
}

impl Series {
    fn fresh() -> Series {
        Series {
            chunk: 0,
            state: ReaderState::default(),
            segments: [Segmentation::default(); 8],
        }
    }

    // Lists a frame, behind which the records are others.
    fn list_frame(
        &mut self,
        streams: &mut Streams,
        page: &mut Page,
        place: Place,
        h: Header,
    ) -> Result<(), Error> {
        let after = Segmentation::update_segmentation(self.segments, h);
        self.segments = after;
        page.make_room(streams)?;
        page.put_frame(place, h, &self.segments);
        Ok(())
    }

    // Lists the state, which ends a chunk.
    fn end_chunk(
        &mut self,
        streams: &mut Streams,
        page: &mut Page,
        state: ReaderState,
    ) -> Result<(), Error> {
        page.make_room(streams)?;
        page.put_state(state);
        self.state = state;
        self.chunk = self.chunk.saturating_add(1);
        Ok(())
    }

    fn answer_chunk(
        &mut self,
        streams: &mut Streams,
        page: &mut Page,
        s: &[u8],
    ) -> Result<(), Error> {
        let read = chunk_parser::parse_chunk(s, self.state);
        match read.answer {
            Answer::Frames(n) => {
                for i in 0..n.min(MAX_FRAMES_IN_SUPERFRAME) {
                    let place = Place {
                        chunk: self.chunk,
                        frame: i,
                        at: read.at[i],
                        size: read.size[i],
                    };
                    self.list_frame(streams, page, place, read.headers[i])?;
                }
            }
            answer => {
                page.make_room(streams)?;
                page.put_refusal(self.chunk, answer.number(), answer.frame());
            }
        }
        self.end_chunk(streams, page, read.state)
    }

    // A single frame of a chunk, printed as the only one.
    fn answer_frame(
        &mut self,
        streams: &mut Streams,
        page: &mut Page,
        s: &[u8],
        offset: usize,
        size: usize,
    ) -> Result<(), Error> {
        let mut state = self.state;
        let read = chunk_frame::parse_frame(s, offset, size, &mut state);
        match read {
            Ok(header) => {
                let place = Place {
                    chunk: self.chunk,
                    frame: 0,
                    at: 0,
                    size,
                };
                self.list_frame(streams, page, place, header)?;
            }
            Err(_) => {
                page.make_room(streams)?;
                page.put_refusal(self.chunk, header_verdict::frame_number(&read), 0);
            }
        }
        self.end_chunk(streams, page, state)
    }

    fn answer(
        &mut self,
        streams: &mut Streams,
        page: &mut Page,
        record: Record,
        buf: &[u8],
    ) -> Result<(), Error> {
        match record {
            Record::Fresh => {
                *self = Series::fresh();
                Ok(())
            }
            Record::Chunk(n) => self.answer_chunk(streams, page, front(buf, n)),
            Record::Frame(n, offset, size) => {
                self.answer_frame(streams, page, front(buf, n), offset, size)
            }
        }
    }
}

// A record of a series: a chunk is so many bytes at the buffer's start.
#[derive(Clone, Copy)]
enum Record {
    Fresh,
    Chunk(usize),
    // A single frame of such a chunk, at an offset and of a size.
    Frame(usize, usize, usize),
}

fn read_size(streams: &mut Streams) -> Result<usize, Unfilled> {
    let mut bytes = [0u8; 8];
    streams.fill(&mut bytes, 0)?;
    Ok(u64::from_le_bytes(bytes) as usize)
}

fn read_chunk(streams: &mut Streams, buf: &mut [u8]) -> Result<usize, Unfilled> {
    let mut bytes = [0u8; 4];
    streams.fill(&mut bytes, 0)?;
    let n = u32::from_le_bytes(bytes) as usize;
    streams.fill_front(buf, n)?;
    Ok(n)
}

// The next record. A byte that says none ends the series.
fn read_record(streams: &mut Streams, buf: &mut [u8]) -> Result<Record, Unfilled> {
    let mut kind = [0u8; 1];
    streams.fill(&mut kind, 0)?;
    match kind[0] {
        0 => Ok(Record::Fresh),
        1 => Ok(Record::Chunk(read_chunk(streams, buf)?)),
        3 => {
            let offset = read_size(streams)?;
            let size = read_size(streams)?;
            let n = read_chunk(streams, buf)?;
            Ok(Record::Frame(n, offset, size))
        }
        _ => Err(Unfilled::Ended(0)),
    }
}

// Nothing says that the input ends, so the records are counted.
fn trace_series(streams: &mut Streams, mut page: Page, buf: &mut [u8]) -> Ending {
    let mut series = Series::fresh();
    let mut ending = Ending::Done;
    for _ in 0..u64::MAX {
        match read_record(streams, buf) {
            Ok(record) => {
                if let Err(why) = series.answer(streams, &mut page, record, buf) {
                    return Ending::Unwritten(why);
                }
            }
            Err(Unfilled::Ended(_)) => break,
            // What was listed before a read failed is written all the same.
            Err(Unfilled::Failed(_, why)) => {
                Ending::Unread(why).say(streams);
                ending = Ending::Said;
                break;
            }
        }
    }
    page.finish(streams, ending)
}

// A file.

// Prints what a tracer yields.
fn put_item(page: &mut Page, traced: Traced) {
    match traced.yields {
        Yields::Columns => page.put_columns(),
        Yields::Frame(chunk, frame, at, size) => {
            let place = Place {
                chunk,
                frame,
                at,
                size,
            };
            page.put_frame(place, traced.header, &traced.tracer.records);
        }
        Yields::Refused(chunk, number, frame) => page.put_refusal(chunk, number, frame),
        Yields::NoFile => page.put_file_refused(7),
        Yields::Cut(chunks, refused) => {
            page.put_file_refused(8);
            page.put_last(chunks, refused);
        }
        Yields::Last(chunks, refused) => page.put_last(chunks, refused),
        Yields::More | Yields::Again | Yields::Over => {}
    }
}

// Nothing says that the input ends, so the turns are counted.
fn trace_file(streams: &mut Streams, mut page: Page, buf: &mut [u8]) -> Ending {
    let mut input = Input::new();
    let mut tracer = Tracer::new();
    let mut ending = Ending::Done;
    for _ in 0..u64::MAX {
        let traced = listing_tracer::next_item(tracer, input.at_hand(buf), input.ended);
        tracer = traced.tracer;
        input = input.used(traced.used);
        match traced.yields {
            Yields::More => {
                // What was read before a read failed is printed, and the failure is said already.
                if input.failed {
                    break;
                }
                input = input.refill(streams, buf);
            }
            Yields::Again => {}
            Yields::Over => break,
            _ => {
                if let Err(why) = page.make_room(streams) {
                    return Ending::Unwritten(why);
                }
                put_item(&mut page, traced);
            }
        }
        if let Yields::NoFile | Yields::Cut(_, _) = traced.yields {
            ending = Ending::Refused;
        }
    }
    if input.failed {
        ending = Ending::Said;
    }
    page.finish(streams, ending)
}

// Four times what a record may take, so that most of each read is new.
fn input_buffer() -> [u8; 262144]
    ensures { 262144 ≡ length result }
{
    [0; 262144]
}

fn trace(streams: &mut Streams, forms: &[u8], mode: Mode) {
    let mut out = io::large_buffer();
    let page = Page {
        forms,
        form: forms,
        out: &mut out,
        at: 0,
    };
    let ending = match mode {
        Mode::File => {
            let mut buf = input_buffer();
            trace_file(streams, page, &mut buf)
        }
        Mode::Series => {
            let mut buf = io::large_buffer();
            trace_series(streams, page, &mut buf)
        }
    };
    ending.say(streams);
}

// What the arguments ask for.
#[derive(Clone, Copy)]
enum Mode {
    File,
    Series,
}

fn asked(rt: &impl Env) -> Option<Mode> {
    let mut word = [0u8; 8];
    match rt.arg(1, &mut word) {
        Ok(n) => {
            if &word[..n] == b"series".as_slice() && is_alone(rt) {
                Some(Mode::Series)
            } else {
                None
            }
        }
        Err(FillError::NotPresent) => Some(Mode::File),
        Err(FillError::TooLong) => None,
    }
}

// Whether there is no second argument.
fn is_alone(rt: &impl Env) -> bool {
    matches!(rt.arg(2, &mut []), Err(FillError::NotPresent))
}

fn trace_by_forms(streams: &mut Streams, mode: Mode) {
    trace(
        streams,
        b"# refused # frame #\n@\
        # # <key|intra|inter|show> # # # # # #\n\
        \x20 Header { profile: Profile#, bit_depth: Depth#, subsampling_x: ?, subsampling_y: ?, \
        color_space: <Unknown|Bt601|Bt709|Smpte170|Smpte240|Bt2020|Reserved2|CsSrgb>, color_range: <StudioSwing|FullSwing>, \
        show_existing_frame: ?, frame_to_show_map_idx: #, frame_type: <KeyFrame|InterFrame>, show_frame: ?, \
        error_resilient_mode: ?, width: #, height: #, render_and_frame_size_different: ?, render_width: #, \
        render_height: #, intra_only: ?, reset_frame_context: #, refresh_frame_flags: #, ref_frame_idx: [#, #, #], \
        ref_frame_sign_bias: [#, #, #, #], allow_high_precision_mv: ?, \
        interpolation_filter: <EightTap|EightTapSmooth|EightTapSharp|Bilinear|Switchable>, refresh_frame_context: ?, \
        frame_parallel_decoding_mode: ?, frame_context_idx: #@\
        , lf: LoopFilterParams { level: #, sharpness: #, delta_enabled: ?, delta_update: ?, \
        update_ref_delta: [?, ?, ?, ?], ref_deltas: [%, %, %, %], update_mode_delta: [?, ?], mode_deltas: [%, %] }@\
        , quant: QuantizationParams { base_q_idx: #, delta_q_y_dc: %, delta_q_uv_dc: %, delta_q_uv_ac: % }@\
        , seg: SegmentationParams { enabled: ?, update_map: ?, tree_probs: [#, #, #, #, #, #, #], \
        pred_probs: [#, #, #], temporal_update: ?, update_data: ?, abs_or_delta_update: ?, \
        feature_enabled: [[?, ?, ?, ?], [?, ?, ?, ?], [?, ?, ?, ?], [?, ?, ?, ?], [?, ?, ?, ?], [?, ?, ?, ?], [?, ?, ?, ?], [?, ?, ?, ?]], \
        feature_data: [[%, %, %, %], [%, %, %, %], [%, %, %, %], [%, %, %, %], [%, %, %, %], [%, %, %, %], [%, %, %, %], [%, %, %, %]] }@\
        , tile_cols_log2: #, tile_rows_log2: #, lossless: ?, header_size_in_bytes: #, uncompressed_header_size_in_bytes: # }\n@\
        \x20 seg # Segmentation { lvl_lookup: [[#, #], [#, #], [#, #], [#, #]], luma_ac_quant_scale: %, luma_dc_quant_scale: %, \
        chroma_ac_quant_scale: %, chroma_dc_quant_scale: %, reference_frame_enabled: ?, reference_frame: %, \
        reference_skip_enabled: ? }\n@\
        \x20 state ReaderState { bit_depth: Depth#, subsampling_x: ?, subsampling_y: ?, \
        color_space: <Unknown|Bt601|Bt709|Smpte170|Smpte240|Bt2020|Reserved2|CsSrgb>, color_range: <StudioSwing|FullSwing>@\
        , reference_frame_sz: [FrameSize { width: #, height: # }, FrameSize { width: #, height: # }, FrameSize { width: #, height: # }, \
        FrameSize { width: #, height: # }, FrameSize { width: #, height: # }, FrameSize { width: #, height: # }, \
        FrameSize { width: #, height: # }, FrameSize { width: #, height: # }] }\n@\
        chunk frame kind at size width height refresh hdr\n@\
        file refused #\n@\
        # chunks # refused\n@",
        mode,
    )
}

fn main(rt: HostRuntime) {
    let mut streams = Streams::new(rt.stdin(), rt.stdout(), rt.stderr());
    match asked(&rt) {
        Some(mode) => trace_by_forms(&mut streams, mode),
        None => {
            let _ = rt.eprintln("tool_trace: takes no argument but series");
        }
    }
}
