// The features' part of segmentation_params().
#![tactic(auto)]

ghost use Rattle.std.specs.Prelude.{◌≡◌};
ghost use Rattle.base_syntax.specs.Reader.{over};
ghost use Rattle.part_segment_data.specs.Features.{feature_rows};
ghost use Rattle.grammar_tables.specs.Reading.{read_features};
ghost use Rattle.part_segment_data.specs.Data.{DataIs};

use base_bits::{Cursor, Read};
use base_segmentation::SegmentationParams;

// The features of all segments, segment after segment in each row.
#[derive(Clone, Copy)]
struct Features {
    enabled: [bool; SegmentationParams::FEATURES],
    values: [i16; SegmentationParams::FEATURES],
}

fn parse_features(s: &[u8], c: Cursor) -> Read<Features>
    ensures { result ≡ over feature_rows (read_features s.now c.at) }
{
    let mut enabled = [false; SegmentationParams::FEATURES];
    let mut values = [0; SegmentationParams::FEATURES];
    let mut at = c;
    for k in 0..SegmentationParams::FEATURES {
        let (feature, next) = part_feature::parse_feature(
            s,
            at,
            k % SegmentationParams::SEG_LVL_MAX,
        )?;
        enabled[k] = feature.enabled;
        values[k] = feature.value;
        at = next;
    }
    Ok((Features { enabled, values }, at))
}

// The features' part. Without an update they keep their values; with one, a disabled feature's value becomes 0.
pub fn parse_data(s: &[u8], c: Cursor, old: SegmentationParams) -> Read<SegmentationParams>
    ensures { DataIs s.now c.at old result }
{
    let (update, c) = part_field::read_field(s, c, 1)?;
    let (absolute, c) = part_field::read_field_if(s, c, update == 1, 1)?;
    let mut seg = old;
    seg.update_data = update == 1;
    if update != 1 {
        return Ok((seg, c));
    }
    let (Features { enabled, values }, c) = parse_features(s, c)?;
    seg.abs_or_delta_update = absolute == 1;
    seg.feature_enabled = enabled;
    seg.feature_data = values;
    Ok((seg, c))
}
