// A field of a header: where a bit read is taken apart, and where one that runs past the frame's last byte ends the
// header.
#![tactic(auto)]

ghost use Rattle.std.specs.Prelude.{◌≡◌};
ghost use Rattle.base_bits.specs.Read.{read_bits, read_bits_if};
ghost use Rattle.part_field.specs.PastEnd.{past_end};

use base_bits::{Cursor, Read, Refusal};

// The value and the place past it, or else refusal 6.
pub fn read_field(s: &[u8], c: Cursor, n: usize) -> Read<u32>
    ensures { result ≡ past_end (read_bits s.now c.at n) }
{
    let Ok((value, c)) = base_bits::read_bits(s, c, n) else {
        return Err(Refusal::PastEnd);
    };
    Ok((value, c))
}

// A field that is there only sometimes: 0 where it isn't, and nothing is read.
pub fn read_field_if(s: &[u8], c: Cursor, there: bool, n: usize) -> Read<u32>
    ensures { result ≡ past_end (read_bits_if there s.now c.at n) }
{
    let Ok((value, c)) = base_bits::read_bits_if(s, c, there, n) else {
        return Err(Refusal::PastEnd);
    };
    Ok((value, c))
}
