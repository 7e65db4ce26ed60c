// Numbers as text: put into a buffer as other bytes are.
#![tactic(auto)]

ghost use Rattle.base_bytes.specs.Put.{Written};
ghost use Rattle.text_numeral.specs.Numeral.{numeral};

// A number in decimal digits, as much of it as there is room for; the answer is the place after it.
pub fn put_number(out: &mut [u8], at: usize, n: u64) -> usize
    ensures { Written out.old at (numeral n) result out.new }
{
    let mut digits = [0u8; 20];
    let k = io::decimal(n, &mut digits);
    base_bytes::put(out, at, &digits[..k])
}
