// The segmentation settings, which a state remembers from frame to frame.
#![tactic(auto)]

ghost use Rattle.std.specs.Prelude.{◌≡◌, ◌+◌, ◌*◌};
ghost use Rattle.base_enums.specs.SegLvl.{seg_lvl_number};
ghost use Rattle.base_segmentation.specs.SegmentationParams.{
  default_segmentation,
  reset_segmentation,
  feature_enabled,
  feature_active,
  feature_data,
};

use base_enums::SegLvl;

// The features of segment s stand at s * 4 to s * 4 + 3 of the last two rows.
#[derive(Clone, Copy, Debug, PartialEq, Eq)]
pub struct SegmentationParams {
    pub enabled: bool,
    pub update_map: bool,
    pub tree_probs: [u8; SegmentationParams::SEG_TREE_PROBS],
    pub pred_probs: [u8; SegmentationParams::PREDICTION_PROBS],
    pub temporal_update: bool,
    pub update_data: bool,
    pub abs_or_delta_update: bool,
    pub feature_enabled: [bool; SegmentationParams::FEATURES],
    pub feature_data: [i16; SegmentationParams::FEATURES],
}

impl SegmentationParams {
    pub const MAX_SEGMENTS: usize = 8;

    pub const SEG_LVL_MAX: usize = 4;

    pub const FEATURES: usize = Self::MAX_SEGMENTS * Self::SEG_LVL_MAX;

    pub const SEG_TREE_PROBS: usize = Self::MAX_SEGMENTS - 1;

    pub const PREDICTION_PROBS: usize = 3;

    pub const DEFAULT: Self = Self {
        enabled: false,
        update_map: false,
        tree_probs: [0; Self::SEG_TREE_PROBS],
        pred_probs: [0; Self::PREDICTION_PROBS],
        temporal_update: false,
        update_data: false,
        abs_or_delta_update: false,
        feature_enabled: [false; Self::FEATURES],
        feature_data: [0; Self::FEATURES],
    };

    // What a frame that owes nothing to earlier frames starts from.
    pub fn reset(mut self) -> Self
        ensures { result ≡ reset_segmentation self }
    {
        self.abs_or_delta_update = false;
        self.feature_enabled = [false; Self::FEATURES];
        self.feature_data = [0; Self::FEATURES];
        self
    }

    pub fn is_feature_enabled(&self, segment_id: u8, feature: SegLvl) -> bool
        ensures { result ≡ feature_enabled self.now segment_id feature }
    {
        self.feature_enabled
            .get(place(segment_id, feature))
            .copied()
            .unwrap_or(false)
    }

    pub fn is_feature_active(&self, segment_id: u8, feature: SegLvl) -> bool
        ensures { result ≡ feature_active self.now segment_id feature }
    {
        self.enabled && self.is_feature_enabled(segment_id, feature)
    }

    // 0 where there is no such segment, past the end of the row.
    pub fn feature_data(&self, segment_id: u8, feature: SegLvl) -> i16
        ensures { result ≡ feature_data self.now segment_id feature }
    {
        self.feature_data
            .get(place(segment_id, feature))
            .copied()
            .unwrap_or(0)
    }
}

impl Default for SegmentationParams {
    ghost is_default = { λ p. p ≡ default_segmentation };

    fn default() -> Self {
        Self::DEFAULT
    }
}

fn place(segment_id: u8, feature: SegLvl) -> usize
    ensures { result ≡ segment_id * 4 + seg_lvl_number feature }
{
    segment_id as usize * SegmentationParams::SEG_LVL_MAX + feature as usize
}
