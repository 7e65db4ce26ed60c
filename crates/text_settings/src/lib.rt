// The settings of a frame as text: docs/LONG-FORM.md. Each row of numbers has its form.
#![tactic(auto)]

ghost use Rattle.base_bytes.specs.Put.{Written};
ghost use Rattle.text_settings.specs.Settings.{filter_text, quantization_text, switches_text, features_text, data_text, segmentation_text};

use base_loop_filter::LoopFilterParams;
use base_quantization::QuantizationParams;
use base_segmentation::SegmentationParams;
use text_form::put_form;

pub fn put_filter(out: &mut [u8], at: usize, lf: LoopFilterParams) -> usize
    ensures { Written out.old at (filter_text lf) result out.new }
{
    let row = text_setting_rows::filter_row(lf);
    put_form(
        out,
        at,
        b", lf: LoopFilterParams { level: #, sharpness: #, delta_enabled: ?, delta_update: ?, \
        update_ref_delta: [?, ?, ?, ?], ref_deltas: [%, %, %, %], update_mode_delta: [?, ?], mode_deltas: [%, %] }",
        &row,
    )
}

pub fn put_quantization(out: &mut [u8], at: usize, q: QuantizationParams) -> usize
    ensures { Written out.old at (quantization_text q) result out.new }
{
    let row = text_setting_rows::quantization_row(q);
    put_form(
        out,
        at,
        b", quant: QuantizationParams { base_q_idx: #, delta_q_y_dc: %, delta_q_uv_dc: %, delta_q_uv_ac: % }",
        &row,
    )
}

fn put_switches(out: &mut [u8], at: usize, seg: SegmentationParams) -> usize
    ensures { Written out.old at (switches_text seg) result out.new }
{
    let row = text_setting_rows::segmentation_row(seg);
    put_form(
        out,
        at,
        b", seg: SegmentationParams { enabled: ?, update_map: ?, tree_probs: [#, #, #, #, #, #, #], \
        pred_probs: [#, #, #], temporal_update: ?, update_data: ?, abs_or_delta_update: ?",
        &row,
    )
}

fn put_features(out: &mut [u8], at: usize, seg: SegmentationParams) -> usize
    ensures { Written out.old at (features_text seg) result out.new }
{
    let enabled = seg.feature_enabled;
    let row = text_setting_rows::flag_row(enabled);
    put_form(
        out,
        at,
        b", feature_enabled: [[?, ?, ?, ?], [?, ?, ?, ?], [?, ?, ?, ?], [?, ?, ?, ?], [?, ?, ?, ?], \
        [?, ?, ?, ?], [?, ?, ?, ?], [?, ?, ?, ?]]",
        &row,
    )
}

fn put_data(out: &mut [u8], at: usize, seg: SegmentationParams) -> usize
    ensures { Written out.old at (data_text seg) result out.new }
{
    let data = seg.feature_data;
    let row = text_setting_rows::data_row(data);
    put_form(
        out,
        at,
        b", feature_data: [[%, %, %, %], [%, %, %, %], [%, %, %, %], [%, %, %, %], [%, %, %, %], \
        [%, %, %, %], [%, %, %, %], [%, %, %, %]] }",
        &row,
    )
}

pub fn put_segmentation(out: &mut [u8], at: usize, seg: SegmentationParams) -> usize
    ensures { Written out.old at (segmentation_text seg) result out.new }
{
    let next = put_switches(out, at, seg);
    let next = put_features(out, next, seg);
    put_data(out, next, seg)
}
