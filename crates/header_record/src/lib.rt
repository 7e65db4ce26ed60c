// The record of a frame's header, put together from the parts that were read.
#![tactic(auto)]

ghost use Rattle.std.specs.Prelude.{◌≡◌};
ghost use Rattle.header_record.specs.Record.{cut_length, independent, frame_type_of, sign_biases, frame_record};

use base_enums::{FrameType, Profile};
use base_types::Header;
use header_lead::Lead;
use header_tail::{Closing, Settings};

// An intra or error-resilient frame.
pub fn is_independent(l: Lead) -> bool
    ensures { result ≡ independent l }
{
    l.traits.key | (l.shot.kind.intra_only | l.traits.error_resilient_mode)
}

fn frame_type(key: bool) -> FrameType
    ensures { result ≡ frame_type_of key }
{
    if key {
        FrameType::KeyFrame
    } else {
        FrameType::InterFrame
    }
}

fn sign_biases(l: Lead) -> [u8; Header::MAX_REF_FRAMES]
    ensures { result ≡ sign_biases l }
{
    if is_independent(l) {
        return [0; Header::MAX_REF_FRAMES];
    }
    let refs = l.shot.picture.sources.refs;
    [
        0,
        refs.last.sign_bias,
        refs.golden.sign_bias,
        refs.altref.sign_bias,
    ]
}

// Bits in whole bytes. No header is near the limit.
fn header_bytes(at: usize) -> u16
    ensures { result ≡ cut_length at }
{
    if at > 524280 {
        65535
    } else {
        ((at + 7) / 8) as u16
    }
}

// The record of a header that ends before a place.
pub fn frame_record(profile: u32, l: Lead, g: Settings, c: Closing, at: usize) -> Header
    ensures { result ≡ frame_record profile l g c (cut_length at) }
{
    let color = l.shot.picture.color;
    let bit_depth = color.bit_depth;
    let color_space = color.color_space;
    let color_range = color.color_range;
    let sources = l.shot.picture.sources;
    let sizes = l.shot.picture.sizes;
    let motion = l.shot.picture.motion;
    let interpolation_filter = motion.interpolation_filter;
    let lf = g.lf;
    let quant = g.quant;
    let seg = g.seg;
    Header {
        profile: Profile::of_two_bits(profile),
        bit_depth,
        subsampling_x: color.subsampling_x,
        subsampling_y: color.subsampling_y,
        color_space,
        color_range,
        show_existing_frame: false,
        frame_to_show_map_idx: 0,
        frame_type: frame_type(l.traits.key),
        show_frame: l.traits.show_frame,
        error_resilient_mode: l.traits.error_resilient_mode,
        width: sizes.frame.width,
        height: sizes.frame.height,
        render_and_frame_size_different: sizes.render.different,
        render_width: sizes.render.size.width,
        render_height: sizes.render.size.height,
        intra_only: l.shot.kind.intra_only,
        reset_frame_context: l.shot.kind.reset_frame_context,
        refresh_frame_flags: sources.refresh_frame_flags,
        ref_frame_idx: [
            sources.refs.last.idx,
            sources.refs.golden.idx,
            sources.refs.altref.idx,
        ],
        ref_frame_sign_bias: sign_biases(l),
        allow_high_precision_mv: motion.allow_high_precision_mv,
        interpolation_filter,
        refresh_frame_context: l.context.refresh_frame_context,
        frame_parallel_decoding_mode: l.context.frame_parallel_decoding_mode,
        frame_context_idx: l.context.frame_context_idx,
        lf,
        quant,
        seg,
        tile_cols_log2: c.tiles.cols_log2,
        tile_rows_log2: c.tiles.rows_log2,
        lossless: part_quantization::is_lossless(quant),
        header_size_in_bytes: c.header_size_in_bytes,
        uncompressed_header_size_in_bytes: header_bytes(at),
    }
}
