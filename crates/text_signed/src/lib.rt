// Numbers with a sign, in a row of numbers without one, and as text.
#![tactic(auto)]

ghost use Rattle.std.specs.Prelude.{◌≡◌};
ghost use Rattle.base_bytes.specs.Put.{Written};
ghost use Rattle.text_signed.specs.Number.{lifted, lowered_text};

// What a number with a sign stands as.
pub fn lift(n: i16) -> u32
    ensures { result ≡ lifted n }
{
    (n as i32 + 65536) as u32
}

// The number that stands as n, in decimal digits behind its sign; the answer is the place after it.
pub fn put_lowered(out: &mut [u8], at: usize, n: u64) -> usize
    ensures { Written out.old at (lowered_text n) result out.new }
{
    if n < 65536 {
        let next = base_bytes::put(out, at, b"-");
        return text_numeral::put_number(out, next, 65536 - n);
    }
    text_numeral::put_number(out, at, n - 65536)
}
