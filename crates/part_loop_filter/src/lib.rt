// loop_filter_params().
#![tactic(auto)]

ghost use Rattle.std.specs.Prelude.{◌≡◌, false};
ghost use Rattle.base_syntax.specs.Reader.{over};
ghost use Rattle.grammar_tables.specs.Reading.{read_loop_filter};
ghost use Rattle.grammar_settings.specs.Settings.{loop_filter_of};

use base_bits::{Cursor, Read};
use base_loop_filter::LoopFilterParams;

pub fn parse_loop_filter_params(
    s: &[u8],
    c: Cursor,
    old: LoopFilterParams,
) -> Read<LoopFilterParams>
    ensures { result ≡ over (loop_filter_of false old) (read_loop_filter s.now c.at) }
{
    let (level, c) = part_field::read_field(s, c, 6)?;
    let (sharpness, c) = part_field::read_field(s, c, 3)?;
    let (enabled, c) = part_field::read_field(s, c, 1)?;
    let mut lf = old;
    lf.level = level as u8;
    lf.sharpness = sharpness as u8;
    lf.delta_enabled = enabled == 1;
    if enabled == 1 {
        part_loop_deltas::parse_loop_deltas(s, c, lf)
    } else {
        Ok((lf, c))
    }
}
