// A walk through an IVF file of which a part is at hand: what stands next, and how many bytes that takes.
#![tactic(auto)]

ghost use Rattle.std.specs.Prelude.{◌≡◌};
ghost use Rattle.ivf_file.specs.File.{file_of};
ghost use Rattle.ivf_walk.specs.Turn.{file_turn, start_turn, record_turn, skip_turn, turn_of};

use ivf_arriving::Next;

// How far the walk has come.
#[derive(Clone, Copy)]
pub enum Stage {
    // Before the file's header.
    Start,
    // Behind it, or behind a record.
    Records,
    // Inside a record over `ivf_arriving::MAX_DATA`: so much of its data is still to be passed by.
    Skip(u64),
    // Behind everything that is said of the file.
    Over,
}

#[derive(Clone, Copy)]
pub enum Event {
    // Nothing, until more of the file is at hand.
    More,
    // Nothing: the header of a record over the limit is passed.
    Pass,
    // docs/RULES.md's 7.
    NoFile,
    // The file's header is passed.
    Opened,
    // So much data, behind the record's header.
    Data(usize),
    // docs/RULES.md's 9: a whole record over the limit is passed.
    TooLong,
    // docs/RULES.md's 8.
    Cut,
    End,
    // Nothing: all is said already.
    Over,
}

#[derive(Clone, Copy)]
pub struct Turn {
    pub event: Event,
    // How many bytes it takes.
    pub used: usize,
    pub stage: Stage,
}

// The file's header, or as much as there is of it.
fn file_turn(s: &[u8]) -> Turn
    ensures { result ≡ file_turn (file_of s.now) }
{
    match ivf_file::parse_ivf_header(s) {
        Ok(_) => Turn {
            event: Event::Opened,
            used: 32,
            stage: Stage::Records,
        },
        Err(_) => Turn {
            event: Event::NoFile,
            used: 0,
            stage: Stage::Over,
        },
    }
}

fn start_turn(s: &[u8], ended: bool) -> Turn
    ensures { result ≡ start_turn s.now ended }
{
    if ended {
        return file_turn(s);
    }
    if s.len() < 32 {
        return Turn {
            event: Event::More,
            used: 0,
            stage: Stage::Start,
        };
    }
    file_turn(s)
}

fn record_turn(s: &[u8], ended: bool) -> Turn
    ensures { result ≡ record_turn s.now ended }
{
    match ivf_arriving::next_record(s, ended) {
        Next::End => Turn {
            event: Event::End,
            used: 0,
            stage: Stage::Over,
        },
        Next::More => Turn {
            event: Event::More,
            used: 0,
            stage: Stage::Records,
        },
        Next::Cut => Turn {
            event: Event::Cut,
            used: 0,
            stage: Stage::Over,
        },
        Next::Data(n) => Turn {
            event: Event::Data(n),
            used: 12 + n,
            stage: Stage::Records,
        },
        Next::Long(n) => Turn {
            event: Event::Pass,
            used: 12,
            stage: Stage::Skip(n),
        },
    }
}

// As much of the data as is at hand is passed.
fn skip_turn(left: u64, s: &[u8], ended: bool) -> Turn
    ensures { result ≡ skip_turn left s.now ended }
{
    let held = s.len() as u64;
    if left <= held {
        return Turn {
            event: Event::TooLong,
            used: left as usize,
            stage: Stage::Records,
        };
    }
    if ended {
        return Turn {
            event: Event::Cut,
            used: s.len(),
            stage: Stage::Over,
        };
    }
    Turn {
        event: Event::More,
        used: s.len(),
        stage: Stage::Skip(left - held),
    }
}

// What stands at the start of s, which the file goes on after unless it has ended.
pub fn next_turn(stage: Stage, s: &[u8], ended: bool) -> Turn
    ensures { result ≡ turn_of stage s.now ended }
{
    match stage {
        Stage::Start => start_turn(s, ended),
        Stage::Records => record_turn(s, ended),
        Stage::Skip(left) => skip_turn(left, s, ended),
        Stage::Over => Turn {
            event: Event::Over,
            used: 0,
            stage: Stage::Over,
        },
    }
}
