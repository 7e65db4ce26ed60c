// Makes the calls of the libraries that no other program makes, and prints a line for each answer, for tests/calls.
// Standard input is a series of records: four bytes of length, low byte first, and as many bytes, of which the first
// says what is asked. Other numbers are eight bytes, low byte first.
// 0, a number: the number of the variant that has it in each of seven enums, or - for none.
// 1, a byte 1 for yes, an offset, a size, the length of the new chunk, its bytes, and those of the last good one: the
// part that is shown.
// 2, a place and a file: the record there by its length, its time, where its data starts and where the next one
// stands; or end, or cut.
#![tactic(auto)]

ghost use Rattle.std.specs.Prelude.{◌≡◌, length};

use base_enums::{
    BitDepth, ColorRange, ColorSpace, FrameType, InterpolationFilter, Profile, ReferenceFrameType,
};
use base_parts::{front, rest};
use base_stream::{Ending, Streams, Unfilled};
use std::io::Error;
use test_values::{byte_at, flag_at};

// The text that isn't written yet, up to `at`.
#[derive(Drop)]
struct Text<'a> {
    out: &'a mut [u8],
    at: usize,
}

impl Text<'_> {
    fn put(&mut self, bytes: &[u8]) {
        self.at = base_bytes::put(self.out, self.at, bytes);
    }

    fn put_number(&mut self, n: u64) {
        self.put(b" ");
        self.at = text_numeral::put_number(self.out, self.at, n);
    }

    // Writes where there may be no room for the next line.
    fn make_room(&mut self, streams: &mut Streams) -> Result<(), Error> {
        let at = self.at;
        self.at = streams.make_room(self.out, at, ROOM)?;
        Ok(())
    }

    // Writes what is left to be written.
    fn finish(self, streams: &mut Streams) -> Ending {
        let at = self.at;
        streams.finish(self.out, at, Ending::Done)
    }

    // The number of a variant, if there is one.
    fn put_variant(&mut self, number: Option<u64>) {
        match number {
            Some(n) => self.put_number(n),
            None => self.put(b" -"),
        }
    }
}

// The enums.

fn interpolation_filter(n: u32) -> Option<u64> {
    match InterpolationFilter::try_from(n) {
        Ok(v) => Some(u32::from(v) as u64),
        Err(_) => None,
    }
}

fn reference_frame_type(n: u32) -> Option<u64> {
    match ReferenceFrameType::try_from(n) {
        Ok(v) => Some(u32::from(v) as u64),
        Err(_) => None,
    }
}

fn frame_type(n: u8) -> Option<u64> {
    match FrameType::try_from(n) {
        Ok(v) => Some(u8::from(v) as u64),
        Err(_) => None,
    }
}

fn profile(n: u32) -> Option<u64> {
    match Profile::try_from(n) {
        Ok(v) => Some(u32::from(v) as u64),
        Err(_) => None,
    }
}

fn bit_depth(n: u32) -> Option<u64> {
    match BitDepth::try_from(n) {
        Ok(v) => Some(u32::from(v) as u64),
        Err(_) => None,
    }
}

fn color_space(n: u32) -> Option<u64> {
    match ColorSpace::try_from(n) {
        Ok(v) => Some(u32::from(v) as u64),
        Err(_) => None,
    }
}

fn color_range(n: u32) -> Option<u64> {
    match ColorRange::try_from(n) {
        Ok(v) => Some(u32::from(v) as u64),
        Err(_) => None,
    }
}

// What is asked.

fn number_at(s: &[u8], at: usize) -> u64 {
    let Ok(n) = base_little::read_little(s, at, 8) else {
        return 0;
    };
    n
}

fn tell_number(text: &mut Text, s: &[u8]) {
    let n = (number_at(s, 1) % 4294967296) as u32;
    text.put_variant(interpolation_filter(n));
    text.put_variant(reference_frame_type(n));
    // A frame type's number is a byte.
    text.put_variant(frame_type((n % 256) as u8));
    text.put_variant(profile(n));
    text.put_variant(bit_depth(n));
    text.put_variant(color_space(n));
    text.put_variant(color_range(n));
    text.put(b"\n");
}

// The two chunks stand one after the other, the first of so many bytes.
fn tell_choice(text: &mut Text, s: &[u8]) {
    let yes = flag_at(s, 1);
    let offset = number_at(s, 2) as usize;
    let size = number_at(s, 10) as usize;
    let length = number_at(s, 18) as usize;
    let chunks = rest(s, 26);
    let new = front(chunks, length);
    let last_good = rest(chunks, length);
    let part = chunk_choice::choose_picture(new, last_good, yes, offset, size);
    text.put_number(part.len() as u64);
    text.put(b" ");
    text.put(part);
    text.put(b"\n");
}

fn tell_record(text: &mut Text, s: &[u8]) {
    match ivf_file::read_record(rest(s, 9), number_at(s, 1) as usize) {
        Ok(Some(record)) => {
            text.put_number(record.length as u64);
            text.put_number(record.time);
            text.put_number(record.data as u64);
            text.put_number(record.next as u64);
            text.put(b"\n");
        }
        Ok(None) => text.put(b" end\n"),
        Err(_) => text.put(b" cut\n"),
    }
}

fn tell(text: &mut Text, s: &[u8]) {
    match byte_at(s, 0) {
        0 => tell_number(text, s),
        1 => tell_choice(text, s),
        2 => tell_record(text, s),
        _ => text.put(b" ?\n"),
    }
}

// Reads a record to the buffer's front: so many bytes.
fn read_record(streams: &mut Streams, buf: &mut [u8]) -> Result<usize, Unfilled> {
    let mut length = [0u8; 4];
    streams.fill(&mut length, 0)?;
    let n = u32::from_le_bytes(length) as usize;
    streams.fill_front(buf, n)?;
    Ok(n)
}

// A line takes less: at most a record's bytes and six numbers.
const ROOM: usize = 131072;

// Nothing says that the input ends, so the records are counted. One of no bytes ends the series.
fn tell_all(streams: &mut Streams, buf: &mut [u8], out: &mut [u8]) -> Ending {
    let mut text = Text { out, at: 0 };
    for _ in 0..u64::MAX {
        let n = match read_record(streams, buf) {
            Err(Unfilled::Failed(_, why)) => return Ending::Unread(why),
            Ok(0) | Err(Unfilled::Ended(_)) => break,
            Ok(n) => n,
        };
        if let Err(why) = text.make_room(streams) {
            return Ending::Unwritten(why);
        }
        tell(&mut text, front(buf, n));
    }
    text.finish(streams)
}

fn out_buffer() -> [u8; 262144]
    ensures { 262144 ≡ length result }
{
    [0; 262144]
}

fn main(rt: HostRuntime) {
    let mut streams = Streams::new(rt.stdin(), rt.stdout(), rt.stderr());
    let mut buf = io::large_buffer();
    let mut out = out_buffer();
    let ending = tell_all(&mut streams, &mut buf, &mut out);
    ending.say(&streams);
}
