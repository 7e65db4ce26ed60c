// Values that bytes spell, for the programs of the tests: a byte past the slice's end is 255, a flag is 1 for set,
// and a number with a sign is a byte, 0 for plus, 1 for minus, else for the least number of its type, and its
// magnitude, high byte first.
#![tactic(auto)]

ghost use Rattle.std.specs.Prelude.{◌≡◌};
ghost use Rattle.test_values.specs.Values.{
  byte_at,
  flag_at,
  magnitude8,
  magnitude16,
  signed_by,
  signed_byte_at,
  signed_short_at,
  flags_at,
  signed_shorts_at,
  depth_at,
};

use base_enums::BitDepth;
use base_parts::rest;

pub fn byte_at(s: &[u8], i: usize) -> u8
    ensures { result ≡ byte_at s.now i }
{
    if i < s.len() { s[i] } else { 255 }
}

pub fn flag_at(s: &[u8], i: usize) -> bool
    ensures { result ≡ flag_at s.now i }
{
    byte_at(s, i) == 1
}

fn signed_8(sign: u8, magnitude: u8) -> i8
    ensures { result ≡ signed_by 128 sign (magnitude8 magnitude) }
{
    let m = (magnitude % 128) as i8;
    match sign {
        0 => m,
        1 => -m,
        _ => -128,
    }
}

fn signed_16(sign: u8, high: u8, low: u8) -> i16
    ensures { result ≡ signed_by 32768 sign (magnitude16 high low) }
{
    let m = ((high % 128) as u16 * 256 + low as u16) as i16;
    match sign {
        0 => m,
        1 => -m,
        _ => -32768,
    }
}

pub fn signed_byte_at(s: &[u8], at: usize) -> i8
    ensures { result ≡ signed_byte_at s.now at }
{
    let b = rest(s, at);
    signed_8(byte_at(b, 0), byte_at(b, 1))
}

pub fn signed_short_at(s: &[u8], at: usize) -> i16
    ensures { result ≡ signed_short_at s.now at }
{
    let b = rest(s, at);
    signed_16(byte_at(b, 0), byte_at(b, 1), byte_at(b, 2))
}

// 32 flags, a byte each.
pub fn flags_at(s: &[u8], at: usize) -> [bool; 32]
    ensures { result ≡ flags_at s.now at }
{
    let b = rest(s, at);
    let mut out = [false; 32];
    for i in 0..32usize {
        out[i] = flag_at(b, i);
    }
    out
}

// 32 numbers of 16 bits, three bytes each.
pub fn signed_shorts_at(s: &[u8], at: usize) -> [i16; 32]
    ensures { result ≡ signed_shorts_at s.now at }
{
    let b = rest(s, at);
    let mut out = [0i16; 32];
    for i in 0..32usize {
        out[i] = signed_short_at(b, i * 3);
    }
    out
}

pub fn depth_at(s: &[u8], i: usize) -> BitDepth
    ensures { result ≡ depth_at s.now i }
{
    match byte_at(s, i) {
        0 => BitDepth::Depth8,
        1 => BitDepth::Depth10,
        _ => BitDepth::Depth12,
    }
}
