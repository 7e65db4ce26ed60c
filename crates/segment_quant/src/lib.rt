// The quantizer index and the four scales of a segment: VP9's dequantization functions, section 8.6.1.
#![tactic(auto)]

ghost use Rattle.std.specs.Prelude.{◌≡◌, pos, ◌+ℤ◌};
ghost use Rattle.segment_clamp.specs.Clamp.{clamp_to};
ghost use Rattle.segment_quant.specs.Quant.{qindex_of, qindex, scale_at, dc_delta, ac_delta, dc_quant, ac_quant, scales_at};

use base_enums::{BitDepth, SegLvl};
use base_quantization::QuantizationParams;
use base_segmentation::SegmentationParams;
use segment_tables::Table;

const MAX_Q_INDEX: u8 = 255;

// What a segment's blocks are scaled by.
#[derive(Clone, Copy, Debug, PartialEq, Eq)]
pub struct Scales {
    pub luma_ac: i16,
    pub luma_dc: i16,
    pub chroma_ac: i16,
    pub chroma_dc: i16,
}

// The base, unless a feature is active.
fn qindex_of(base: u8, active: bool, absolute: bool, d: i16) -> u8
    ensures { result ≡ qindex_of base active absolute d }
{
    if active {
        segment_clamp::altered(base, absolute, d, MAX_Q_INDEX)
    } else {
        base
    }
}

// Where a delta leads from an index, within the tables.
fn index(b: u8, delta: i8) -> u8
    ensures { result ≡ clamp_to 255 (pos b +ℤ delta) }
{
    segment_clamp::moved_by(b, delta as i16, MAX_Q_INDEX)
}

fn dc_delta(quant: QuantizationParams, luma: bool) -> i8
    ensures { result ≡ dc_delta quant luma }
{
    if luma {
        quant.delta_q_y_dc
    } else {
        quant.delta_q_uv_dc
    }
}

// Luma's ac has no delta.
fn ac_delta(quant: QuantizationParams, luma: bool) -> i8
    ensures { result ≡ ac_delta quant luma }
{
    if luma { 0 } else { quant.delta_q_uv_ac }
}

fn scale_at(table: &Table, b: u8, delta: i8) -> i16
    ensures { result ≡ scale_at table.now (pos b +ℤ delta) }
{
    segment_tables::at(table, index(b, delta))
}

pub fn get_qindex(quant: QuantizationParams, seg: SegmentationParams, segment_id: u8) -> u8
    ensures { result ≡ qindex quant seg segment_id }
{
    let active = seg.is_feature_active(segment_id, SegLvl::AltQ);
    let d = seg.feature_data(segment_id, SegLvl::AltQ);
    qindex_of(quant.base_q_idx, active, seg.abs_or_delta_update, d)
}

pub fn get_dc_quant(
    depth: BitDepth,
    quant: QuantizationParams,
    seg: SegmentationParams,
    segment_id: u8,
    luma: bool,
) -> i16
    ensures { result ≡ dc_quant depth quant seg segment_id luma }
{
    let table = segment_tables::dc_table(depth);
    scale_at(
        &table,
        get_qindex(quant, seg, segment_id),
        dc_delta(quant, luma),
    )
}

pub fn get_ac_quant(
    depth: BitDepth,
    quant: QuantizationParams,
    seg: SegmentationParams,
    segment_id: u8,
    luma: bool,
) -> i16
    ensures { result ≡ ac_quant depth quant seg segment_id luma }
{
    let table = segment_tables::ac_table(depth);
    scale_at(
        &table,
        get_qindex(quant, seg, segment_id),
        ac_delta(quant, luma),
    )
}

// The four scales at an index, by tables that are made once for all segments.
pub fn scales_at(dc: &Table, ac: &Table, quant: QuantizationParams, b: u8) -> Scales
    ensures { result ≡ scales_at dc.now ac.now quant b }
{
    Scales {
        luma_ac: scale_at(ac, b, 0),
        luma_dc: scale_at(dc, b, quant.delta_q_y_dc),
        chroma_ac: scale_at(ac, b, quant.delta_q_uv_ac),
        chroma_dc: scale_at(dc, b, quant.delta_q_uv_dc),
    }
}
