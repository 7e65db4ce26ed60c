// Puts out the listing of an IVF file as the file arrives: a program reads, feeds what has arrived to a `Lister`, and
// writes what that puts into a buffer. The lister keeps nothing of the file but the reader's state and two counts.
#![tactic(auto)]

ghost use Rattle.std.specs.Prelude.{◌+◌, ◌≤◌, ◌≡◌, [], ◌∷◌, length};
ghost use Rattle.base_shared.specs.Lists.{values_of};
ghost use Rattle.base_bytes.specs.Put.{Written};
ghost use Rattle.text_line.specs.Line.{text_of};
ghost use Rattle.ivf_walk.specs.declared.Event.TheVariants.{Data};
ghost use Rattle.text_listing.specs.Lines.{file_refused_line, last_line};
ghost use Rattle.listing_file.specs.Chunk.{line_of_frame, chunk_lines};
ghost use Rattle.listing_lister.specs.Lister.{fresh_lister, one_more, at_stage, refused_after, after_chunk, after_too_long, FewFrames};
ghost use Rattle.listing_lister.specs.Feed.{has_room, wants_of, event_lines, lister_at, NoData, Answers, Feeds};

use base_types::ReaderState;
use chunk_answer::{Answer, ChunkRead};
use ivf_walk::{Event, Stage, Turn};

#[derive(Clone, Copy)]
pub struct Lister {
    // How far the file is listed.
    pub stage: Stage,
    // How many chunks are listed, and how many of them were refused.
    pub chunks: u64,
    pub refused: u64,
    pub state: ReaderState,
}

// What a lister wants next.
#[derive(Clone, Copy)]
pub enum Wants {
    // `ROOM` bytes in the buffer for its text; nothing is done.
    Room,
    // More of the file.
    Input,
    // To be fed what is left.
    Again,
    // Nothing: the file is listed to its end.
    Whole,
    // Nothing: the file is refused, with 7 or 8.
    Refused,
    // Nothing: that was said already.
    Nothing,
}

#[derive(Clone, Copy)]
pub struct Fed {
    pub lister: Lister,
    // How many bytes of the file are used.
    pub used: usize,
    // Where the text goes on.
    pub at: usize,
    pub wants: Wants,
}

// The lines of a chunk, or the last two, take less.
pub const ROOM: usize = 4096;

fn has_room(len: usize, at: usize) -> bool
    ensures { result ≡ has_room len at }
{
    if at > len {
        return false;
    }
    len - at >= ROOM
}

fn one_more(n: u64) -> u64
    ensures { result ≡ one_more n }
{
    if n < u64::MAX { n + 1 } else { n }
}

impl Lister {
    pub fn new() -> Lister
        ensures { result ≡ fresh_lister }
    {
        Lister {
            stage: Stage::Start,
            chunks: 0,
            refused: 0,
            state: ReaderState::default(),
        }
    }

    // Behind everything but a record's data.
    fn after_event(self, stage: Stage, event: Event) -> Lister
        ensures { result ≡ lister_at self stage event }
    {
        match event {
            Event::TooLong => self.after_too_long(stage),
            Event::More => self.at_stage(stage),
            Event::Pass => self.at_stage(stage),
            Event::NoFile => self.at_stage(stage),
            Event::Opened => self.at_stage(stage),
            Event::Data(_) => self.at_stage(stage),
            Event::Cut => self.at_stage(stage),
            Event::End => self.at_stage(stage),
            Event::Over => self.at_stage(stage),
        }
    }

    fn at_stage(self, stage: Stage) -> Lister
        ensures { result ≡ at_stage self stage }
    {
        let state = self.state;
        Lister {
            stage,
            chunks: self.chunks,
            refused: self.refused,
            state,
        }
    }

    // Behind a record over the limit.
    fn after_too_long(self, stage: Stage) -> Lister
        ensures { result ≡ after_too_long self stage }
    {
        let state = self.state;
        Lister {
            stage,
            chunks: one_more(self.chunks),
            refused: one_more(self.refused),
            state,
        }
    }

    fn after_chunk(self, stage: Stage, read: ChunkRead) -> Lister
        ensures { result ≡ after_chunk self stage read }
    {
        let answer = read.answer;
        let state = read.state;
        Lister {
            stage,
            chunks: one_more(self.chunks),
            refused: refused_after(self.refused, answer),
            state,
        }
    }
}

fn refused_after(n: u64, answer: Answer) -> u64
    ensures { result ≡ refused_after n answer }
{
    match answer {
        Answer::Frames(_) => n,
        Answer::Empty => one_more(n),
        Answer::Short => one_more(n),
        Answer::Past(_) => one_more(n),
        Answer::Header(_, _) => one_more(n),
    }
}

// A line for each frame.
fn put_frames(out: &mut [u8], at: usize, chunk: u64, count: usize, read: ChunkRead) -> usize
    requires { count ≤ 8 }
    ensures { Written out.old at (text_of (values_of (line_of_frame chunk read) count)) result out.new }
{
    let places = read.at;
    let sizes = read.size;
    let headers = read.headers;
    let mut next = at;
    for i in 0..count {
        let header = headers[i];
        next = text_frame_line::frame_line(out, next, chunk, i, places[i], sizes[i], header);
    }
    next
}

// The lines of a chunk.
fn put_chunk(out: &mut [u8], at: usize, chunk: u64, read: ChunkRead) -> usize
    requires { FewFrames read.answer }
    ensures { Written out.old at (text_of (chunk_lines chunk read)) result out.new }
{
    let answer = read.answer;
    let Answer::Frames(count) = answer else {
        return text_listing::refused_line(out, at, chunk, answer.number(), answer.frame());
    };
    put_frames(out, at, chunk, count, read)
}

fn put_cut(out: &mut [u8], at: usize, chunks: u64, refused: u64) -> usize
    ensures { Written out.old at (text_of (file_refused_line 8 ∷ last_line chunks refused ∷ [])) result out.new }
{
    let next = text_listing::file_refused_line(out, at, 8);
    text_listing::last_line(out, next, chunks, refused)
}

// The lines of everything but a record's data.
fn put_event(out: &mut [u8], at: usize, lister: Lister, event: Event) -> usize
    ensures { Written out.old at (text_of (event_lines lister event)) result out.new }
{
    match event {
        Event::NoFile => text_listing::file_refused_line(out, at, 7),
        Event::Opened => text_listing::column_line(out, at),
        Event::TooLong => text_listing::refused_line(out, at, lister.chunks, 9, 0),
        Event::Cut => put_cut(out, at, lister.chunks, lister.refused),
        Event::End => text_listing::last_line(out, at, lister.chunks, lister.refused),
        Event::More => at,
        Event::Pass => at,
        Event::Data(_) => at,
        Event::Over => at,
    }
}

fn wanted(event: Event) -> Wants
    ensures { result ≡ wants_of event }
{
    match event {
        Event::More => Wants::Input,
        Event::Pass => Wants::Again,
        Event::NoFile => Wants::Refused,
        Event::Opened => Wants::Again,
        Event::Data(_) => Wants::Again,
        Event::TooLong => Wants::Again,
        Event::Cut => Wants::Refused,
        Event::End => Wants::Whole,
        Event::Over => Wants::Nothing,
    }
}

fn feed_event(lister: Lister, turn: Turn, s: &[u8], out: &mut [u8], at: usize) -> Fed
    requires { NoData turn.event }
    ensures { Answers out.old at lister s.now turn result out.new }
{
    let event = turn.event;
    let stage = turn.stage;
    let next = put_event(out, at, lister, event);
    Fed {
        lister: lister.after_event(stage, event),
        used: turn.used,
        at: next,
        wants: wanted(event),
    }
}

// A record's data, behind its 12-byte header.
fn feed_chunk(lister: Lister, turn: Turn, n: usize, s: &[u8], out: &mut [u8], at: usize) -> Fed
    requires { (turn.event ≡ Data n) × (12 + n ≤ length s.now) }
    ensures { Answers out.old at lister s.now turn result out.new }
{
    let stage = turn.stage;
    let end = 12 + n;
    let read = chunk_parser::parse_chunk(&s[12..end], lister.state);
    let next = put_chunk(out, at, lister.chunks, read);
    Fed {
        lister: lister.after_chunk(stage, read),
        used: turn.used,
        at: next,
        wants: Wants::Again,
    }
}

// Lists what stands at the start of s, which the file goes on after unless it has ended: its text is put into the
// buffer from `at` on. What isn't used is to be fed again, with what has arrived since behind it.
pub fn feed(lister: Lister, s: &[u8], ended: bool, out: &mut [u8], at: usize) -> Fed
    ensures { Feeds out.old at lister s.now ended result out.new }
{
    if !has_room(out.len(), at) {
        return Fed {
            lister,
            used: 0,
            at,
            wants: Wants::Room,
        };
    }
    let stage = lister.stage;
    let turn = ivf_walk::next_turn(stage, s, ended);
    let event = turn.event;
    let Event::Data(n) = event else {
        return feed_event(lister, turn, s, out, at);
    };
    feed_chunk(lister, turn, n, s, out, at)
}
