// Bytes put after bytes in a lent buffer: each call puts some at a place and answers the place after them.
#![tactic(auto)]

ghost use Rattle.std.specs.Prelude.{◌-◌, ◌≤◌, min, ◌≡◌, [], ◌∷◌, length};
ghost use Rattle.std.proofs.Math.Seq.{paste};
ghost use Rattle.base_little.specs.Little.{spell_little};
ghost use Rattle.base_bytes.specs.Put.{Written};

// As much of the text as there is room for.
pub fn put(out: &mut [u8], at: usize, text: &[u8]) -> usize
    ensures { Written out.old at text.now result out.new }
{
    if at >= out.len() {
        return at;
    }
    let n = text.len().min(out.len() - at);
    out[at..at + n].copy_from_slice(&text[..n]);
    at + n
}

// One byte, if there is room for it.
pub fn put_byte(out: &mut [u8], at: usize, byte: u8) -> usize
    ensures { Written out.old at (byte ∷ []) result out.new }
{
    if at >= out.len() {
        return at;
    }
    out[at] = byte;
    at + 1
}

// The number's n low bytes, low byte first, likewise.
pub fn put_little(out: &mut [u8], at: usize, n: usize, number: u64) -> usize
    ensures { Written out.old at (spell_little n number) result out.new }
{
    let mut next = at;
    let mut left = number;
    for _ in 0..n {
        next = put_byte(out, next, (left % 256) as u8);
        left = left / 256;
    }
    next
}
