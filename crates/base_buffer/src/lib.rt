// Bytes within a buffer.
#![tactic(auto)]

ghost use Rattle.base_buffer.specs.Front.{Moved};

// Moves the bytes from `start` to `end`, or to the buffer's end, to the front, and answers how many they are.
pub fn to_front(buf: &mut [u8], start: usize, end: usize) -> usize
    ensures { Moved buf.old start end result buf.new }
{
    let end = end.min(buf.len());
    let start = start.min(end);
    buf.copy_within(start..end, 0);
    end - start
}
