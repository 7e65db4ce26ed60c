// color_config(): depth, colour space, range and subsampling.
#![tactic(auto)]

ghost use Rattle.std.specs.Prelude.{◌≡◌};
ghost use Rattle.base_syntax.specs.Reader.{over};
ghost use Rattle.part_color.specs.Color.{color_of};
ghost use Rattle.grammar_settings.specs.Enums.{depth_of};
ghost use Rattle.grammar_tables.specs.Reading.{read_color};
ghost use Rattle.part_color.specs.Intra.{read_intra_color, intra_color_of};

use base_bits::{Cursor, Read};
use base_enums::{BitDepth, ColorRange, ColorSpace};

#[derive(Clone, Copy)]
pub struct Color {
    pub bit_depth: BitDepth,
    pub color_space: ColorSpace,
    pub color_range: ColorRange,
    pub subsampling_x: bool,
    pub subsampling_y: bool,
}

// Profiles 0 and 1 have 8 bits.
fn depth_of(profile: u32, bit: u32) -> BitDepth
    ensures { result ≡ depth_of profile bit }
{
    if profile < 2 {
        return BitDepth::Depth8;
    }
    if bit == 1 {
        BitDepth::Depth12
    } else {
        BitDepth::Depth10
    }
}

pub fn parse_color_config(s: &[u8], c: Cursor, profile: u32) -> Read<Color>
    ensures { result ≡ over (color_of profile) (read_color profile s.now c.at) }
{
    let (depth, c) = part_field::read_field_if(s, c, profile >= 2, 1)?;
    let (space, c) = part_field::read_field(s, c, 3)?;
    let (sampling, c) = part_sampling::parse_sampling(s, c, profile, space)?;
    let color = Color {
        bit_depth: depth_of(profile, depth),
        color_space: ColorSpace::of_three_bits(space),
        color_range: sampling.color_range,
        subsampling_x: sampling.subsampling_x,
        subsampling_y: sampling.subsampling_y,
    };
    Ok((color, c))
}

// The colour of an intra-only frame, which profile 0 doesn't code.
pub fn parse_intra_color(s: &[u8], c: Cursor, profile: u32) -> Read<Color>
    ensures { result ≡ over (intra_color_of profile) (read_intra_color profile s.now c.at) }
{
    if profile > 0 {
        return parse_color_config(s, c, profile);
    }
    let fixed = Color {
        bit_depth: BitDepth::Depth8,
        color_space: ColorSpace::Bt601,
        color_range: ColorRange::StudioSwing,
        subsampling_x: true,
        subsampling_y: true,
    };
    Ok((fixed, c))
}
