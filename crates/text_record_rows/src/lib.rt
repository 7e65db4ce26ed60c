// A header, a state's slots and a segment record as rows of numbers, as text_setting_rows has the settings: an enum stands
// by its number.
#![tactic(auto)]

ghost use Rattle.std.specs.Prelude.{◌≡◌};
ghost use Rattle.text_record_rows.specs.Records.{color_row, picture_row, source_row, end_row, slot_row, segment_row};

use base_enums::{BitDepth, ColorRange, ColorSpace};
use base_size::FrameSize;
use base_types::Header;
use segment_records::Segmentation;

// A header, group by group.

pub fn color_row(
    depth: BitDepth,
    x: bool,
    y: bool,
    space: ColorSpace,
    range: ColorRange,
) -> [u32; 5]
    ensures { result ≡ color_row depth x y space range }
{
    [
        u32::from(depth),
        x as u32,
        y as u32,
        u32::from(space),
        u32::from(range),
    ]
}

pub fn picture_row(h: Header) -> [u32; 10]
    ensures { result ≡ picture_row h }
{
    let frame_type = h.frame_type;
    [
        h.show_existing_frame as u32,
        h.frame_to_show_map_idx as u32,
        u8::from(frame_type) as u32,
        h.show_frame as u32,
        h.error_resilient_mode as u32,
        h.width,
        h.height,
        h.render_and_frame_size_different as u32,
        h.render_width,
        h.render_height,
    ]
}

pub fn source_row(h: Header) -> [u32; 15]
    ensures { result ≡ source_row h }
{
    let filter = h.interpolation_filter;
    [
        h.intra_only as u32,
        h.reset_frame_context as u32,
        h.refresh_frame_flags as u32,
        h.ref_frame_idx[0] as u32,
        h.ref_frame_idx[1] as u32,
        h.ref_frame_idx[2] as u32,
        u32::from(h.ref_frame_sign_bias[0]),
        u32::from(h.ref_frame_sign_bias[1]),
        u32::from(h.ref_frame_sign_bias[2]),
        u32::from(h.ref_frame_sign_bias[3]),
        h.allow_high_precision_mv as u32,
        u32::from(filter),
        h.refresh_frame_context as u32,
        h.frame_parallel_decoding_mode as u32,
        h.frame_context_idx as u32,
    ]
}

pub fn end_row(h: Header) -> [u32; 5]
    ensures { result ≡ end_row h }
{
    [
        u32::from(h.tile_cols_log2),
        u32::from(h.tile_rows_log2),
        h.lossless as u32,
        u32::from(h.header_size_in_bytes),
        u32::from(h.uncompressed_header_size_in_bytes),
    ]
}

// The sizes in a state's slots.
pub fn slot_row(s: [FrameSize; FrameSize::REMEMBERED]) -> [u32; 16]
    ensures { result ≡ slot_row s }
{
    [
        s[0].width,
        s[0].height,
        s[1].width,
        s[1].height,
        s[2].width,
        s[2].height,
        s[3].width,
        s[3].height,
        s[4].width,
        s[4].height,
        s[5].width,
        s[5].height,
        s[6].width,
        s[6].height,
        s[7].width,
        s[7].height,
    ]
}

pub fn segment_row(s: Segmentation) -> [u32; 15]
    ensures { result ≡ segment_row s }
{
    [
        s.lvl_lookup[0] as u32,
        s.lvl_lookup[1] as u32,
        s.lvl_lookup[2] as u32,
        s.lvl_lookup[3] as u32,
        s.lvl_lookup[4] as u32,
        s.lvl_lookup[5] as u32,
        s.lvl_lookup[6] as u32,
        s.lvl_lookup[7] as u32,
        text_signed::lift(s.luma_ac_quant_scale),
        text_signed::lift(s.luma_dc_quant_scale),
        text_signed::lift(s.chroma_ac_quant_scale),
        text_signed::lift(s.chroma_dc_quant_scale),
        s.reference_frame_enabled as u32,
        text_signed::lift(s.reference_frame),
        s.reference_skip_enabled as u32,
    ]
}
