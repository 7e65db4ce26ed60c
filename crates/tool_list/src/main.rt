// Lists an IVF file from standard input, as docs/RULES.md shows it, in constant memory. It reads, feeds what has
// arrived to `listing_lister`, and writes what that puts out; the lister decides everything else.
// The text that is not written yet lies at the front of the output buffer. Once a read or a write fails, nothing more is
// read; once a write fails, nothing more is written.
#![tactic(auto)]

ghost use Rattle.std.specs.Prelude.{◌≡◌, length};

use base_input::Input;
use base_stream::{Ending, Streams};
use listing_lister::{Lister, ROOM, Wants};

// Nothing says that the input ends, so the turns are counted.
fn list(streams: &mut Streams, buf: &mut [u8], out: &mut [u8]) -> Ending {
    let mut input = Input::new();
    let mut lister = Lister::new();
    let mut at = 0;
    let mut ending = Ending::Done;
    for _ in 0..u64::MAX {
        let fed = listing_lister::feed(lister, input.at_hand(buf), input.ended, out, at);
        lister = fed.lister;
        input = input.used(fed.used);
        at = fed.at;
        match fed.wants {
            Wants::Room => match streams.make_room(out, at, ROOM) {
                Ok(next) => at = next,
                Err(why) => return Ending::Unwritten(why),
            },
            Wants::Input => {
                // What was read before a read failed is listed, and the failure is said already.
                if input.failed {
                    break;
                }
                input = input.refill(streams, buf);
            }
            Wants::Again => {}
            Wants::Refused => {
                ending = Ending::Refused;
                break;
            }
            Wants::Whole | Wants::Nothing => break,
        }
    }
    if input.failed {
        ending = Ending::Said;
    }
    streams.finish(out, at, ending)
}

// Four times what a record may take, so that most of each read is new.
fn input_buffer() -> [u8; 262144]
    ensures { 262144 ≡ length result }
{
    [0; 262144]
}

fn main(rt: HostRuntime) {
    let mut streams = Streams::new(rt.stdin(), rt.stdout(), rt.stderr());
    let mut input = input_buffer();
    let mut out = io::large_buffer();
    let ending = list(&mut streams, &mut input, &mut out);
    ending.say(&streams);
}
