// Standard input and output by blocks, and how a program says that it ended.
#![tactic(auto)]

ghost use Rattle.std.specs.Prelude.{◌+◌, ◌≤◌, ◌≡◌, length};
ghost use Rattle.base_stream.specs.Stream.{FilledFrom, FrontFilled, WroteFront, room_left, RoomFor, EndsAs};

use std::io;
use std::io::{Cursor, Error, ErrorKind, Read, Stderr, Stdin, Stdout, Write};

// The standard streams.
#[derive(Drop)]
pub struct Streams {
    input: Stdin,
    output: Stdout,
    errors: Stderr,
}

// Why a buffer isn't full.
#[derive(Clone, Copy)]
pub enum Unfilled {
    // The input ended: the place after its last byte.
    Ended(usize),
    // A read failed: the place after the last byte that came before, and why.
    Failed(usize, Error),
}

// How a program ended. It can't return a status, so the last line on standard error says it.
#[derive(Clone, Copy)]
pub enum Ending {
    // It did what was asked.
    Done,
    // The file is refused, as standard output says.
    Refused,
    // It couldn't read, or write.
    Unread(Error),
    Unwritten(Error),
    // It has said already what it couldn't do.
    Said,
}

fn has_room(size: usize, at: usize, n: usize) -> bool
    ensures { result ≡ room_left size at n }
{
    if at > size {
        return false;
    }
    size - at >= n
}

impl Streams {
    pub fn new(input: Stdin, output: Stdout, errors: Stderr) -> Streams {
        Streams {
            input,
            output,
            errors,
        }
    }

    // Reads standard input into a buffer from a place on, until it is full.
    // Nothing says that an interrupted read ever succeeds, so the turns are counted.
    pub fn fill(&mut self, buf: &mut [u8], at: usize) -> Result<(), Unfilled>
        ensures { FilledFrom buf.old at result buf.new }
    {
        if at > buf.len() {
            return Ok(());
        }
        let mut next = at;
        for _ in 0..u64::MAX {
            if next == buf.len() {
                return Ok(());
            }
            match self.input.read(&mut buf[next..]) {
                Ok(0) => return Err(Unfilled::Ended(next)),
                Ok(n) => next += n,
                Err(e) => {
                    if e.kind() != ErrorKind::Interrupted {
                        return Err(Unfilled::Failed(next, e));
                    }
                }
            }
        }
        Err(Unfilled::Failed(next, Error::from(ErrorKind::Interrupted)))
    }

    // Reads n bytes to a buffer's front, or nothing where it has no room for them.
    pub fn fill_front(&mut self, buf: &mut [u8], n: usize) -> Result<(), Unfilled>
        ensures { FrontFilled buf.old n result buf.new }
    {
        if n > buf.len() {
            return Err(Unfilled::Ended(0));
        }
        self.fill(&mut buf[..n], 0)
    }

    // Writes a buffer's first n bytes to standard output.
    fn write_front(&mut self, out: &[u8], n: usize) -> io::Result<()>
        ensures { WroteFront (length out.now) n result }
    {
        if n > out.len() {
            return Err(Error::from(ErrorKind::InvalidInput));
        }
        self.output.write_all(&out[..n])
    }

    // Makes room for n bytes from `at` on: where fewer are left, what stands before it is written, and the text goes
    // on at 0.
    pub fn make_room(&mut self, out: &[u8], at: usize, n: usize) -> io::Result<usize>
        ensures { RoomFor (length out.now) at n result }
    {
        if has_room(out.len(), at, n) {
            return Ok(at);
        }
        self.write_front(out, at)?;
        Ok(0)
    }

    // Writes a buffer's first `at` bytes, which come before the end as it is given.
    pub fn finish(&mut self, out: &[u8], at: usize, ending: Ending) -> Ending
        ensures { EndsAs (length out.now) at ending result }
    {
        match self.write_front(out, at) {
            Ok(()) => ending,
            Err(e) => Ending::Unwritten(e),
        }
    }
}

// The length of the system's words for an error, which ` (os error N)` follows.
fn words_length(text: &[u8]) -> usize
    ensures { result ≤ length text.now }
{
    let end = text.iter().position(|c| *c == 0).unwrap_or(text.len());
    text[..end]
        .windows(11)
        .position(|part| part == b" (os error ".as_slice())
        .unwrap_or(end)
}

// What standard error doesn't take can't be said anywhere.
fn say(errors: &mut Stderr, text: &[u8]) {
    let _ = Write::write_all(errors, text);
}

// What couldn't be done, and why, in four writes: what one of them doesn't take the others still say.
fn say_failed(errors: &mut Stderr, what: &[u8], why: Error) {
    let mut text = Cursor::new([0u8; 128]);
    let _ = write!(text, "{why}");
    let text = text.into_inner();
    let n = words_length(&text);
    say(errors, what);
    say(errors, b": ");
    say(errors, &text[..n]);
    say(errors, b"\n");
}

impl Ending {
    pub fn say(self, streams: &Streams) {
        let mut errors = streams.errors;
        match self {
            Ending::Done => say(&mut errors, b"status 0\n"),
            Ending::Refused => say(&mut errors, b"status 1\n"),
            Ending::Unread(e) => say_failed(&mut errors, b"can't read", e),
            Ending::Unwritten(e) => say_failed(&mut errors, b"can't write", e),
            Ending::Said => {}
        }
    }
}
