// How an inter frame moves what it refers to: allow_high_precision_mv and read_interpolation_filter().
#![tactic(auto)]

ghost use Rattle.std.specs.Prelude.{◌≡◌};
ghost use Rattle.base_syntax.specs.Reader.{over};
ghost use Rattle.part_motion.specs.Filter.{read_filter, filter_of};
ghost use Rattle.part_motion.specs.Motion.{read_motion, motion_of};

use base_bits::{Cursor, Read};
use base_enums::InterpolationFilter;

fn read_interpolation_filter(s: &[u8], c: Cursor) -> Read<InterpolationFilter>
    ensures { result ≡ over filter_of (read_filter s.now c.at) }
{
    let (switchable, c) = part_field::read_field(s, c, 1)?;
    let (literal, c) = part_field::read_field_if(s, c, switchable != 1, 2)?;
    let filter = if switchable == 1 {
        InterpolationFilter::Switchable
    } else {
        InterpolationFilter::of_two_bits(literal)
    };
    Ok((filter, c))
}

#[derive(Clone, Copy)]
pub struct Motion {
    pub allow_high_precision_mv: bool,
    pub interpolation_filter: InterpolationFilter,
}

pub fn parse_motion(s: &[u8], c: Cursor) -> Read<Motion>
    ensures { result ≡ over motion_of (read_motion s.now c.at) }
{
    let (precise, c) = part_field::read_field(s, c, 1)?;
    let (filter, c) = read_interpolation_filter(s, c)?;
    let motion = Motion {
        allow_high_precision_mv: precise == 1,
        interpolation_filter: filter,
    };
    Ok((motion, c))
}
