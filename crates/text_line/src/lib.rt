// The numbers of a line of text.
#![tactic(auto)]

ghost use Rattle.std.specs.Prelude.{◌++◌};
ghost use Rattle.text_numeral.specs.Ascii.{ascii};
ghost use Rattle.text_numeral.specs.Numeral.{numeral};
ghost use Rattle.base_bytes.specs.Put.{Written};

// A number and the space after it.
pub fn put_field(out: &mut [u8], at: usize, n: u64) -> usize
    ensures { Written out.old at (numeral n ++ ascii " ") result out.new }
{
    let next = text_numeral::put_number(out, at, n);
    base_bytes::put(out, next, b" ")
}

// A number and the line's end.
pub fn put_last(out: &mut [u8], at: usize, n: u64) -> usize
    ensures { Written out.old at (numeral n ++ ascii "\n") result out.new }
{
    let next = text_numeral::put_number(out, at, n);
    base_bytes::put(out, next, b"\n")
}
