// What color_config() has after color_space: range and subsampling.
#![tactic(auto)]

ghost use Rattle.std.specs.Prelude.{◌≡◌};
ghost use Rattle.base_syntax.specs.Reader.{over};
ghost use Rattle.part_sampling.specs.Sampling.{sampling_of, read_sampling};
ghost use Rattle.grammar_settings.specs.Enums.{range_of, subsampling};

use base_bits::{Cursor, Read};
use base_enums::ColorRange;

// The colour space RGB, which codes neither range nor subsampling.
const CS_RGB: u32 = 7;

#[derive(Clone, Copy)]
pub struct Sampling {
    pub color_range: ColorRange,
    pub subsampling_x: bool,
    pub subsampling_y: bool,
}

// RGB has the full range.
fn range_of(space: u32, bit: u32) -> ColorRange
    ensures { result ≡ range_of space bit }
{
    if space == CS_RGB {
        ColorRange::FullSwing
    } else {
        ColorRange::of_bit(bit)
    }
}

// RGB isn't subsampled; any other space is, unless its bit says no.
fn subsampling_of(profile: u32, space: u32, bit: u32) -> bool
    ensures { result ≡ subsampling profile space bit }
{
    if space == CS_RGB {
        return false;
    }
    if profile % 2 == 1 { bit == 1 } else { true }
}

fn sampling_of(profile: u32, space: u32, range: u32, x: u32, y: u32) -> Sampling
    ensures { result ≡ record { color_range = range_of space range; subsampling_x = subsampling profile space x; subsampling_y = subsampling profile space y } }
{
    Sampling {
        color_range: range_of(space, range),
        subsampling_x: subsampling_of(profile, space, x),
        subsampling_y: subsampling_of(profile, space, y),
    }
}

// What color_config() has after color_space.
pub fn parse_sampling(s: &[u8], c: Cursor, profile: u32, space: u32) -> Read<Sampling>
    ensures { result ≡ over (sampling_of profile space) (read_sampling profile space s.now c.at) }
{
    let coded = (space != CS_RGB) & (profile % 2 == 1);
    let (range, c) = part_field::read_field_if(s, c, space != CS_RGB, 1)?;
    let (x, c) = part_field::read_field_if(s, c, coded, 1)?;
    let (y, c) = part_field::read_field_if(s, c, coded, 1)?;
    let (_, c) = part_field::read_field_if(s, c, profile % 2 == 1, 1)?;
    Ok((sampling_of(profile, space, range, x, y), c))
}
