// Standard input as a program uses it up: what is read and not used yet lies in a buffer of the program's.
#![tactic(auto)]

ghost use Rattle.std.specs.Prelude.{◌+◌, min, ◌≡◌};
ghost use Rattle.base_input.specs.Input.{fresh_input, used_of, hand_of, filled_by, Refilled};

use base_parts::{front, rest};
use base_stream::{Ending, Streams, Unfilled};

#[derive(Clone, Copy)]
pub struct Input {
    // What is read and not used yet lies from `start` to `end`.
    pub start: usize,
    pub end: usize,
    // Nothing follows it.
    pub ended: bool,
    // A read failed behind it, which is said already.
    pub failed: bool,
}

// The place n bytes on, which is never past the end.
fn forward(at: usize, end: usize, n: usize) -> usize
    ensures { result ≡ min (at + n) end }
{
    at.saturating_add(n).min(end)
}

impl Input {
    // Nothing is read yet.
    pub fn new() -> Input
        ensures { result ≡ fresh_input }
    {
        Input {
            start: 0,
            end: 0,
            ended: false,
            failed: false,
        }
    }

    // So many bytes are used, or all that are at hand.
    pub fn used(mut self, n: usize) -> Input
        ensures { result ≡ used_of self n }
    {
        self.start = forward(self.start, self.end, n);
        self
    }

    // What is at hand.
    pub fn at_hand(self, buf: &[u8]) -> &[u8]
        ensures { result.now ≡ hand_of buf.now self }
    {
        rest(front(buf, self.end), self.start)
    }

    // Moves what is at hand to the buffer's front, and fills the buffer behind it. Once a read failed no more is read.
    pub fn refill(self, streams: &mut Streams, buf: &mut [u8]) -> Input
        ensures { Refilled buf.old self result buf.new }
    {
        if self.failed {
            return self;
        }
        let n = base_buffer::to_front(buf, self.start, self.end);
        let filled = streams.fill(buf, n);
        if let Err(Unfilled::Failed(_, why)) = filled {
            Ending::Unread(why).say(streams);
        }
        filled_by(buf.len(), filled)
    }
}

// As a buffer of so many bytes was filled.
fn filled_by(size: usize, filled: Result<(), Unfilled>) -> Input
    ensures { result ≡ filled_by size filled }
{
    let (end, ended, failed) = match filled {
        Ok(()) => (size, false, false),
        Err(Unfilled::Ended(end)) => (end, true, false),
        Err(Unfilled::Failed(end, _)) => (end, false, true),
    };
    Input {
        start: 0,
        end,
        ended,
        failed,
    }
}
