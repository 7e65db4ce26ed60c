// Yields the long form of an IVF file (docs/LONG-FORM.md) item by item as the file arrives: a program reads, calls
// `next_item` on what has arrived, and prints what that yields.
#![tactic(auto)]

ghost use Rattle.std.specs.Prelude.{◌+◌, ◌<◌, ◌≤◌, ◌≡◌, length, get_or};
ghost use Rattle.listing_items.specs.Items.{header_at};
ghost use Rattle.listing_lister.specs.Lister.{one_more};
ghost use Rattle.listing_tracer.specs.Tracer.{fresh_tracer, tracer_at, after_refused, after_accepted, after_frame};
ghost use Rattle.listing_tracer.specs.Traced.{turned_to, refused_traced, chunk_traced, data_traced, DataThere, turn_traced, frame_traced, traced_of};

use base_types::{Header, ReaderState};
use chunk_answer::{Answer, ChunkRead};
use ivf_walk::{Event, Stage, Turn};
use segment_records::Segmentation;

#[derive(Clone, Copy)]
pub struct Tracer {
    // How far the file is read.
    pub stage: Stage,
    // How many chunks are read, and how many of them were refused.
    pub chunks: u64,
    pub refused: u64,
    pub state: ReaderState,
    // The segment records after the last frame that was yielded.
    pub records: [Segmentation; 8],
    // Of the last accepted chunk the frames from `frame` on are still to be yielded, up to `count`.
    pub chunk: u64,
    pub frame: usize,
    pub count: usize,
    pub read: ChunkRead,
}

// What is to be printed next.
#[derive(Clone, Copy)]
pub enum Yields {
    // Nothing, until more of the file is at hand.
    More,
    // Nothing yet.
    Again,
    Columns,
    // A frame, by the chunk's number and its own, its place and its size. Its header is beside, and the segment records
    // after it are the tracer's.
    Frame(u64, usize, usize, usize),
    // A refused chunk, by its number, docs/RULES.md's number, and the frame's.
    Refused(u64, u8, usize),
    // The file is refused, with 7.
    NoFile,
    // It is refused, with 8; and so many chunks, of which so many were refused.
    Cut(u64, u64),
    // The last line: so many chunks, of which so many were refused.
    Last(u64, u64),
    // Nothing: all is yielded.
    Over,
}

#[derive(Clone, Copy)]
pub struct Traced {
    pub tracer: Tracer,
    // How many bytes of the file are used.
    pub used: usize,
    pub yields: Yields,
    // A frame's, the default one where none is yielded.
    pub header: Header,
}

fn one_more(n: u64) -> u64
    ensures { result ≡ one_more n }
{
    if n < u64::MAX { n + 1 } else { n }
}

impl Tracer {
    pub fn new() -> Tracer
        ensures { result ≡ fresh_tracer }
    {
        let read = chunk_answer::refused(Answer::Empty, ReaderState::default());
        Tracer {
            stage: Stage::Start,
            chunks: 0,
            refused: 0,
            state: ReaderState::default(),
            records: [Segmentation::default(); 8],
            chunk: 0,
            frame: 0,
            count: 0,
            read,
        }
    }

    fn at_stage(self, stage: Stage) -> Tracer
        ensures { result ≡ tracer_at self stage }
    {
        let state = self.state;
        let records = self.records;
        let read = self.read;
        Tracer {
            stage,
            chunks: self.chunks,
            refused: self.refused,
            state,
            records,
            chunk: self.chunk,
            frame: self.frame,
            count: self.count,
            read,
        }
    }

    // Behind a chunk that is refused.
    fn after_refused(self, stage: Stage) -> Tracer
        ensures { result ≡ after_refused self stage }
    {
        let state = self.state;
        let records = self.records;
        let read = self.read;
        Tracer {
            stage,
            chunks: one_more(self.chunks),
            refused: one_more(self.refused),
            state,
            records,
            chunk: self.chunk,
            frame: self.frame,
            count: self.count,
            read,
        }
    }

    // Behind one that is accepted, before its frames are yielded.
    fn after_chunk(self, stage: Stage, read: ChunkRead, count: usize) -> Tracer
        ensures { result ≡ after_accepted self stage read count }
    {
        let state = read.state;
        let records = self.records;
        Tracer {
            stage,
            chunks: one_more(self.chunks),
            refused: self.refused,
            state,
            records,
            chunk: self.chunks,
            frame: 0,
            count,
            read,
        }
    }

    // Behind a frame, with the records after it.
    fn after_frame(self, records: [Segmentation; 8]) -> Tracer
        requires { self.frame < self.count }
        ensures { result ≡ after_frame self records }
    {
        let stage = self.stage;
        let state = self.state;
        let read = self.read;
        Tracer {
            stage,
            chunks: self.chunks,
            refused: self.refused,
            state,
            records,
            chunk: self.chunk,
            frame: self.frame + 1,
            count: self.count,
            read,
        }
    }
}

// Of a frame, of which there are never more than eight.

fn place_at(read: ChunkRead, i: usize) -> usize
    ensures { result ≡ get_or read.at i 0 }
{
    let places = read.at;
    if i < 8 { places[i] } else { 0 }
}

fn size_at(read: ChunkRead, i: usize) -> usize
    ensures { result ≡ get_or read.size i 0 }
{
    let sizes = read.size;
    if i < 8 { sizes[i] } else { 0 }
}

fn header_at(read: ChunkRead, i: usize) -> Header
    ensures { result ≡ header_at read i }
{
    let headers = read.headers;
    if i < 8 { headers[i] } else { Header::default() }
}

// A frame of a chunk that was read before: the step is run with its header.
fn next_frame(tracer: Tracer) -> Traced
    requires { tracer.frame < tracer.count }
    ensures { result ≡ frame_traced tracer }
{
    let i = tracer.frame;
    let read = tracer.read;
    let at = place_at(read, i);
    let size = size_at(read, i);
    let header = header_at(read, i);
    let before = tracer.records;
    let after = Segmentation::update_segmentation(before, header);
    Traced {
        tracer: tracer.after_frame(after),
        used: 0,
        yields: Yields::Frame(tracer.chunk, i, at, size),
        header,
    }
}

// Behind a turn that yields no frame and counts no chunk.
fn turned(tracer: Tracer, turn: Turn, yields: Yields) -> Traced
    ensures { result ≡ turned_to tracer turn yields }
{
    let stage = turn.stage;
    Traced {
        tracer: tracer.at_stage(stage),
        used: turn.used,
        yields,
        header: Header::default(),
    }
}

fn refused_item(tracer: Tracer, turn: Turn, number: u8, frame: usize) -> Traced
    ensures { result ≡ refused_traced tracer turn number frame }
{
    let stage = turn.stage;
    Traced {
        tracer: tracer.after_refused(stage),
        used: turn.used,
        yields: Yields::Refused(tracer.chunks, number, frame),
        header: Header::default(),
    }
}

fn chunk_item(tracer: Tracer, turn: Turn, read: ChunkRead) -> Traced
    ensures { result ≡ chunk_traced tracer turn read read.answer }
{
    let stage = turn.stage;
    let answer = read.answer;
    let Answer::Frames(count) = answer else {
        return refused_item(tracer, turn, answer.number(), answer.frame());
    };
    Traced {
        tracer: tracer.after_chunk(stage, read, count),
        used: turn.used,
        yields: Yields::Again,
        header: Header::default(),
    }
}

// A record's data, behind its 12-byte header.
fn data_item(tracer: Tracer, turn: Turn, n: usize, s: &[u8]) -> Traced
    requires { 12 + n ≤ length s.now }
    ensures { result ≡ data_traced tracer s.now turn n }
{
    let end = 12 + n;
    let read = chunk_parser::parse_chunk(&s[12..end], tracer.state);
    chunk_item(tracer, turn, read)
}

fn turn_item(tracer: Tracer, turn: Turn, s: &[u8]) -> Traced
    requires { DataThere turn s.now }
    ensures { result ≡ turn_traced tracer s.now turn turn.event }
{
    let event = turn.event;
    match event {
        Event::More => turned(tracer, turn, Yields::More),
        Event::Pass => turned(tracer, turn, Yields::Again),
        Event::NoFile => turned(tracer, turn, Yields::NoFile),
        Event::Opened => turned(tracer, turn, Yields::Columns),
        Event::Data(n) => data_item(tracer, turn, n, s),
        Event::TooLong => refused_item(tracer, turn, 9, 0),
        Event::Cut => turned(tracer, turn, Yields::Cut(tracer.chunks, tracer.refused)),
        Event::End => turned(tracer, turn, Yields::Last(tracer.chunks, tracer.refused)),
        Event::Over => turned(tracer, turn, Yields::Over),
    }
}

// What stands at the start of s, which the file goes on after unless it has ended. What isn't used is to be handed in
// again, with what has arrived since behind it.
pub fn next_item(tracer: Tracer, s: &[u8], ended: bool) -> Traced
    ensures { result ≡ traced_of tracer s.now ended }
{
    if tracer.frame < tracer.count {
        return next_frame(tracer);
    }
    let stage = tracer.stage;
    let turn = ivf_walk::next_turn(stage, s, ended);
    turn_item(tracer, turn, s)
}
