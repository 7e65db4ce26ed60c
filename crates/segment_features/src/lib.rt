// What the features of one segment say. The settings are lent: by value they are copied at every call.
#![tactic(auto)]

ghost use Rattle.std.specs.Prelude.{◌≡◌};
ghost use Rattle.segment_features.specs.Features.{features_of};

use base_enums::SegLvl;
use base_segmentation::SegmentationParams;

pub type Enabled = [bool; SegmentationParams::FEATURES];

pub type Values = [i16; SegmentationParams::FEATURES];

#[derive(Clone, Copy, Debug, PartialEq, Eq)]
pub struct Features {
    pub absolute: bool,
    pub quantizer_active: bool,
    pub quantizer: i16,
    pub level_active: bool,
    pub level: i16,
    pub reference_enabled: bool,
    pub reference: i16,
    pub skip_enabled: bool,
}

pub fn features_of(seg: &SegmentationParams, segment_id: u8) -> Features
    ensures { result ≡ features_of seg.now segment_id }
{
    Features {
        absolute: seg.abs_or_delta_update,
        quantizer_active: seg.is_feature_active(segment_id, SegLvl::AltQ),
        quantizer: seg.feature_data(segment_id, SegLvl::AltQ),
        level_active: seg.is_feature_active(segment_id, SegLvl::AltL),
        level: seg.feature_data(segment_id, SegLvl::AltL),
        reference_enabled: seg.is_feature_enabled(segment_id, SegLvl::RefFrame),
        reference: seg.feature_data(segment_id, SegLvl::RefFrame),
        skip_enabled: seg.is_feature_enabled(segment_id, SegLvl::LvlSkip),
    }
}
