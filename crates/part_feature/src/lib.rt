// One feature of one segment in segmentation_params().
#![tactic(auto)]

ghost use Rattle.std.specs.Prelude.{◌&&◌, ◌≡◌};
ghost use Rattle.part_feature.specs.Feature.{FeatureIs};
ghost use Rattle.grammar_tables.specs.Tables.{feature_bits, feature_signed};

use base_bits::{Cursor, Read};
use base_segmentation::SegmentationParams;

// How wide each feature's value is, and whether a sign follows it: quantizer, filter level, reference, skip.
const SEGMENTATION_FEATURE_BITS: [usize; SegmentationParams::SEG_LVL_MAX] = [8, 6, 2, 0];

const SEGMENTATION_FEATURE_SIGNED: [bool; SegmentationParams::SEG_LVL_MAX] = [
    true, true, false, false,
];

fn feature_bits(j: usize) -> usize
    ensures { result ≡ feature_bits j }
{
    SEGMENTATION_FEATURE_BITS.get(j).copied().unwrap_or(0)
}

fn feature_signed(j: usize) -> bool
    ensures { result ≡ feature_signed j }
{
    SEGMENTATION_FEATURE_SIGNED.get(j).copied().unwrap_or(false)
}

// A sign follows a feature that is enabled, where the table says so.
fn sign_there(enabled: bool, j: usize) -> bool
    ensures { result ≡ enabled && feature_signed j }
{
    enabled && feature_signed(j)
}

// A feature of a segment; its value is 0 where it is disabled.
#[derive(Clone, Copy)]
pub struct Feature {
    pub enabled: bool,
    pub value: i16,
}

// Feature j of a segment. One past the tables has no value and no sign.
pub fn parse_feature(s: &[u8], c: Cursor, j: usize) -> Read<Feature>
    ensures { FeatureIs s.now c.at j result }
{
    let (flag, c) = part_field::read_field(s, c, 1)?;
    let enabled = flag == 1;
    let (magnitude, c) = part_field::read_field_if(s, c, enabled, feature_bits(j))?;
    let (sign, c) = part_field::read_field_if(s, c, sign_there(enabled, j), 1)?;
    // The value is unsigned before its sign: its top bit is no sign.
    let value = part_coded::signed_16(magnitude as u8, sign == 1);
    Ok((Feature { enabled, value }, c))
}
