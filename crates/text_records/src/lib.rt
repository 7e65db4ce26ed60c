// A header, a state and the segment records as text: docs/LONG-FORM.md. Each row of numbers has its form.
#![tactic(auto)]

ghost use Rattle.std.specs.Prelude.{◌≡◌};
ghost use Rattle.base_bytes.specs.Put.{Written};
ghost use Rattle.text_records.specs.Header.{profile_text, color_text, opening_text, picture_text, source_text, end_text, front_text, settings_text, header_text};
ghost use Rattle.text_records.specs.State.{slots_text, state_opening, state_text};
ghost use Rattle.text_records.specs.Segments.{segment_text, segments_text};

use base_enums::{BitDepth, ColorRange, ColorSpace};
use base_size::FrameSize;
use base_types::{Header, ReaderState};
use segment_records::Segmentation;
use text_form::put_form;

fn put_profile(out: &mut [u8], at: usize, h: Header) -> usize
    ensures { Written out.old at (profile_text h) result out.new }
{
    let profile = h.profile;
    let row = [u32::from(profile)];
    put_form(out, at, b"  Header { profile: Profile#, ", &row)
}

// Of a header or a state.
fn put_colors(
    out: &mut [u8],
    at: usize,
    depth: BitDepth,
    x: bool,
    y: bool,
    space: ColorSpace,
    range: ColorRange,
) -> usize
    ensures { Written out.old at (color_text depth x y space range) result out.new }
{
    let row = text_record_rows::color_row(depth, x, y, space, range);
    put_form(
        out,
        at,
        b"bit_depth: Depth#, subsampling_x: ?, subsampling_y: ?, \
        color_space: <Unknown|Bt601|Bt709|Smpte170|Smpte240|Bt2020|Reserved2|CsSrgb>, color_range: <StudioSwing|FullSwing>",
        &row,
    )
}

fn put_opening(out: &mut [u8], at: usize, h: Header) -> usize
    ensures { Written out.old at (opening_text h) result out.new }
{
    let depth = h.bit_depth;
    let space = h.color_space;
    let range = h.color_range;
    let next = put_profile(out, at, h);
    put_colors(
        out,
        next,
        depth,
        h.subsampling_x,
        h.subsampling_y,
        space,
        range,
    )
}

fn put_picture(out: &mut [u8], at: usize, h: Header) -> usize
    ensures { Written out.old at (picture_text h) result out.new }
{
    let row = text_record_rows::picture_row(h);
    put_form(
        out,
        at,
        b", show_existing_frame: ?, frame_to_show_map_idx: #, frame_type: <KeyFrame|InterFrame>, show_frame: ?, \
        error_resilient_mode: ?, width: #, height: #, render_and_frame_size_different: ?, render_width: #, \
        render_height: #",
        &row,
    )
}

fn put_sources(out: &mut [u8], at: usize, h: Header) -> usize
    ensures { Written out.old at (source_text h) result out.new }
{
    let row = text_record_rows::source_row(h);
    put_form(
        out,
        at,
        b", intra_only: ?, reset_frame_context: #, refresh_frame_flags: #, ref_frame_idx: [#, #, #], \
        ref_frame_sign_bias: [#, #, #, #], allow_high_precision_mv: ?, \
        interpolation_filter: <EightTap|EightTapSmooth|EightTapSharp|Bilinear|Switchable>, refresh_frame_context: ?, \
        frame_parallel_decoding_mode: ?, frame_context_idx: #",
        &row,
    )
}

fn put_front(out: &mut [u8], at: usize, h: Header) -> usize
    ensures { Written out.old at (front_text h) result out.new }
{
    let next = put_opening(out, at, h);
    let next = put_picture(out, next, h);
    put_sources(out, next, h)
}

fn put_settings(out: &mut [u8], at: usize, h: Header) -> usize
    ensures { Written out.old at (settings_text h) result out.new }
{
    let next = text_settings::put_filter(out, at, h.lf);
    let next = text_settings::put_quantization(out, next, h.quant);
    text_settings::put_segmentation(out, next, h.seg)
}

fn put_end(out: &mut [u8], at: usize, h: Header) -> usize
    ensures { Written out.old at (end_text h) result out.new }
{
    let row = text_record_rows::end_row(h);
    put_form(
        out,
        at,
        b", tile_cols_log2: #, tile_rows_log2: #, lossless: ?, header_size_in_bytes: #, \
        uncompressed_header_size_in_bytes: # }\n",
        &row,
    )
}

pub fn put_header(out: &mut [u8], at: usize, h: Header) -> usize
    ensures { Written out.old at (header_text h) result out.new }
{
    let next = put_front(out, at, h);
    let next = put_settings(out, next, h);
    put_end(out, next, h)
}

fn put_state_opening(out: &mut [u8], at: usize, st: ReaderState) -> usize
    ensures { Written out.old at (state_opening st) result out.new }
{
    let depth = st.bit_depth;
    let space = st.color_space;
    let range = st.color_range;
    let next = base_bytes::put(out, at, b"  state ReaderState { ");
    put_colors(
        out,
        next,
        depth,
        st.subsampling_x,
        st.subsampling_y,
        space,
        range,
    )
}

fn put_slots(out: &mut [u8], at: usize, sizes: [FrameSize; FrameSize::REMEMBERED]) -> usize
    ensures { Written out.old at (slots_text sizes) result out.new }
{
    let row = text_record_rows::slot_row(sizes);
    put_form(
        out,
        at,
        b", reference_frame_sz: [FrameSize { width: #, height: # }, FrameSize { width: #, height: # }, \
        FrameSize { width: #, height: # }, FrameSize { width: #, height: # }, FrameSize { width: #, height: # }, \
        FrameSize { width: #, height: # }, FrameSize { width: #, height: # }, FrameSize { width: #, height: # }] }\n",
        &row,
    )
}

pub fn put_state(out: &mut [u8], at: usize, st: ReaderState) -> usize
    ensures { Written out.old at (state_text st) result out.new }
{
    let next = put_state_opening(out, at, st);
    let next = text_settings::put_filter(out, next, st.lf);
    let next = text_settings::put_segmentation(out, next, st.seg);
    let sizes = st.reference_frame_sz;
    put_slots(out, next, sizes)
}

fn put_segment(out: &mut [u8], at: usize, i: usize, s: Segmentation) -> usize
    ensures { Written out.old at (segment_text i s) result out.new }
{
    let row = text_record_rows::segment_row(s);
    let next = base_bytes::put(out, at, b"  seg ");
    let next = text_numeral::put_number(out, next, i as u64);
    put_form(
        out,
        next,
        b" Segmentation { lvl_lookup: [[#, #], [#, #], [#, #], [#, #]], luma_ac_quant_scale: %, luma_dc_quant_scale: %, \
        chroma_ac_quant_scale: %, chroma_dc_quant_scale: %, reference_frame_enabled: ?, reference_frame: %, \
        reference_skip_enabled: ? }\n",
        &row,
    )
}

// A line for each.
pub fn put_segments(out: &mut [u8], at: usize, records: [Segmentation; 8]) -> usize
    ensures { Written out.old at (segments_text records) result out.new }
{
    let mut next = at;
    for (i, s) in records.iter().enumerate() {
        next = put_segment(out, next, i, *s);
    }
    next
}
