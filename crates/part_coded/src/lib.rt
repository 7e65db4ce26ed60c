// Fields that are coded: a signed number, a delta behind a flag, a probability behind a flag.
#![tactic(auto)]

ghost use Rattle.std.specs.Prelude.{◌<◌, ◌≤◌, ◌≡◌};
ghost use Rattle.grammar_settings.specs.Settings.{signed};
ghost use Rattle.part_coded.specs.Delta.{CodedIs, DeltaIs};
ghost use Rattle.part_coded.specs.Prob.{ProbIs};

use base_bits::{BitsError, Cursor, Read};

// The number of a magnitude and a sign: a sign on 0 gives 0.
pub fn signed_16(magnitude: u8, negative: bool) -> i16
    ensures { result ≡ signed magnitude negative }
{
    let wide = magnitude as i16;
    if negative { -wide } else { wide }
}

fn signed_8(magnitude: u32, negative: bool) -> i8
    requires { magnitude < 128 }
    ensures { result ≡ signed magnitude negative }
{
    let m = magnitude as i8;
    if negative { -m } else { m }
}

// A delta behind a flag; 0 where it isn't coded.
#[derive(Clone, Copy)]
pub struct Delta {
    pub coded: bool,
    pub value: i8,
}

// The delta of n bits and a sign. Its three fields have the names that the caller's table gives them. Over 7 bits are too
// wide, since no i8 holds them: then nothing is read.
pub fn read_delta(s: &[u8], c: Cursor, n: usize) -> Result<(Delta, Cursor), BitsError>
    ensures { DeltaIs s.now c.at n result }
{
    if n > 7 {
        return Err(BitsError::TooWide);
    }
    match coded_delta(s, c, n) {
        Ok(read) => Ok(read),
        Err(_) => Err(BitsError::Short),
    }
}

fn coded_delta(s: &[u8], c: Cursor, n: usize) -> Read<Delta>
    requires { n ≤ 7 }
    ensures { CodedIs s.now c.at n result }
{
    let (flag, c) = part_field::read_field(s, c, 1)?;
    let coded = flag == 1;
    let (magnitude, c) = part_field::read_field_if(s, c, coded, n)?;
    let (sign, c) = part_field::read_field_if(s, c, coded, 1)?;
    let value = signed_8(magnitude, sign == 1);
    Ok((Delta { coded, value }, c))
}

// A probability behind a flag: 255 where it isn't coded.
pub fn read_prob(s: &[u8], c: Cursor) -> Read<u8>
    ensures { ProbIs s.now c.at result }
{
    let (coded, c) = part_field::read_field(s, c, 1)?;
    let (prob, c) = part_field::read_field_if(s, c, coded == 1, 8)?;
    let prob = if coded == 1 { prob as u8 } else { 255 };
    Ok((prob, c))
}
