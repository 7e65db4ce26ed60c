// Numbers of a frame that a delta or a feature changes, each brought back into its range.
#![tactic(auto)]

ghost use Rattle.std.specs.Prelude.{◌≡◌, pos, ◌+ℤ◌};
ghost use Rattle.segment_clamp.specs.Clamp.{clamp_to, changed};

// The number from 0 to hi that is nearest to x.
pub fn clamp_to(x: i32, hi: u8) -> u8
    ensures { result ≡ clamp_to hi x }
{
    if x < 0 {
        0
    } else if (hi as i32) < x {
        hi
    } else {
        x as u8
    }
}

// The base with d added, clamped.
pub fn moved_by(base: u8, d: i16, hi: u8) -> u8
    ensures { result ≡ clamp_to hi (pos base +ℤ d) }
{
    clamp_to(base as i32 + d as i32, hi)
}

// A feature's data d in the place of the base or added to it, clamped.
pub fn altered(base: u8, absolute: bool, d: i16, hi: u8) -> u8
    ensures { result ≡ clamp_to hi (changed base absolute d) }
{
    if absolute {
        clamp_to(d as i32, hi)
    } else {
        moved_by(base, d, hi)
    }
}
