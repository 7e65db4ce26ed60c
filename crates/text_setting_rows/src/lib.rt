// The settings of a frame as rows of numbers, for what prints them and for what digests them: a field after the other in
// the record's order, a flag as 0 or 1, a number with a sign lifted.
#![tactic(auto)]

ghost use Rattle.std.specs.Prelude.{◌≡◌};
ghost use Rattle.text_signed.specs.Number.{lifted};
ghost use Rattle.text_setting_rows.specs.Settings.{
  filter_row,
  quantization_row,
  segmentation_row,
  flag_row,
  data_row,
};

use base_loop_filter::LoopFilterParams;
use base_quantization::QuantizationParams;
use base_segmentation::SegmentationParams;

fn lift_byte(n: i8) -> u32
    ensures { result ≡ lifted n }
{
    text_signed::lift(i16::from(n))
}

pub fn filter_row(lf: LoopFilterParams) -> [u32; 16]
    ensures { result ≡ filter_row lf }
{
    [
        lf.level as u32,
        lf.sharpness as u32,
        lf.delta_enabled as u32,
        lf.delta_update as u32,
        lf.update_ref_delta[0] as u32,
        lf.update_ref_delta[1] as u32,
        lf.update_ref_delta[2] as u32,
        lf.update_ref_delta[3] as u32,
        lift_byte(lf.ref_deltas[0]),
        lift_byte(lf.ref_deltas[1]),
        lift_byte(lf.ref_deltas[2]),
        lift_byte(lf.ref_deltas[3]),
        lf.update_mode_delta[0] as u32,
        lf.update_mode_delta[1] as u32,
        lift_byte(lf.mode_deltas[0]),
        lift_byte(lf.mode_deltas[1]),
    ]
}

pub fn quantization_row(q: QuantizationParams) -> [u32; 4]
    ensures { result ≡ quantization_row q }
{
    [
        q.base_q_idx as u32,
        lift_byte(q.delta_q_y_dc),
        lift_byte(q.delta_q_uv_dc),
        lift_byte(q.delta_q_uv_ac),
    ]
}

// Up to the features.
pub fn segmentation_row(seg: SegmentationParams) -> [u32; 15]
    ensures { result ≡ segmentation_row seg }
{
    [
        seg.enabled as u32,
        seg.update_map as u32,
        seg.tree_probs[0] as u32,
        seg.tree_probs[1] as u32,
        seg.tree_probs[2] as u32,
        seg.tree_probs[3] as u32,
        seg.tree_probs[4] as u32,
        seg.tree_probs[5] as u32,
        seg.tree_probs[6] as u32,
        seg.pred_probs[0] as u32,
        seg.pred_probs[1] as u32,
        seg.pred_probs[2] as u32,
        seg.temporal_update as u32,
        seg.update_data as u32,
        seg.abs_or_delta_update as u32,
    ]
}

// Which features are enabled.
pub fn flag_row(s: [bool; SegmentationParams::FEATURES]) -> [u32; SegmentationParams::FEATURES]
    ensures { result ≡ flag_row s }
{
    let mut out = [0u32; SegmentationParams::FEATURES];
    for i in 0..SegmentationParams::FEATURES {
        out[i] = s[i] as u32;
    }
    out
}

// The features' data.
pub fn data_row(s: [i16; SegmentationParams::FEATURES]) -> [u32; SegmentationParams::FEATURES]
    ensures { result ≡ data_row s }
{
    let mut out = [0u32; SegmentationParams::FEATURES];
    for i in 0..SegmentationParams::FEATURES {
        out[i] = text_signed::lift(s[i]);
    }
    out
}
