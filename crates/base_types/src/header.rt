// A frame's header, with the filter, quantizer and segmentation settings that hold for the frame.
ghost use Rattle.std.specs.Prelude.{◌≡◌};
ghost use Rattle.base_types.specs.Header.{default_header, showing_header};

use base_enums::{BitDepth, ColorRange, ColorSpace, FrameType, InterpolationFilter, Profile};
use base_loop_filter::LoopFilterParams;
use base_quantization::QuantizationParams;
use base_segmentation::SegmentationParams;

#[derive(Clone, Copy, Debug, PartialEq, Eq)]
pub struct Header {
    pub profile: Profile,
    pub bit_depth: BitDepth,
    pub subsampling_x: bool,
    pub subsampling_y: bool,
    pub color_space: ColorSpace,
    pub color_range: ColorRange,
    pub show_existing_frame: bool,
    pub frame_to_show_map_idx: u8,
    pub frame_type: FrameType,
    pub show_frame: bool,
    pub error_resilient_mode: bool,
    pub width: u32,
    pub height: u32,
    pub render_and_frame_size_different: bool,
    pub render_width: u32,
    pub render_height: u32,
    pub intra_only: bool,
    pub reset_frame_context: u8,
    pub refresh_frame_flags: u8,
    pub ref_frame_idx: [u8; Header::REFS_PER_FRAME],
    pub ref_frame_sign_bias: [u8; Header::MAX_REF_FRAMES],
    pub allow_high_precision_mv: bool,
    pub interpolation_filter: InterpolationFilter,
    pub refresh_frame_context: bool,
    pub frame_parallel_decoding_mode: bool,
    pub frame_context_idx: u8,
    pub lf: LoopFilterParams,
    pub quant: QuantizationParams,
    pub seg: SegmentationParams,
    pub tile_cols_log2: u8,
    pub tile_rows_log2: u8,
    pub lossless: bool,
    pub header_size_in_bytes: u16,
    pub uncompressed_header_size_in_bytes: u16,
}

impl Header {
    pub const REFS_PER_FRAME: usize = 3;

    pub const MAX_REF_FRAMES: usize = 4;

    // A call's answer is copied; a constant is written where it is wanted, which makes eight of them in a row cheap.
    pub const DEFAULT: Self = Self {
        profile: Profile::Profile0,
        bit_depth: BitDepth::Depth8,
        subsampling_x: false,
        subsampling_y: false,
        color_space: ColorSpace::Unknown,
        color_range: ColorRange::StudioSwing,
        show_existing_frame: false,
        frame_to_show_map_idx: 0,
        frame_type: FrameType::KeyFrame,
        show_frame: false,
        error_resilient_mode: false,
        width: 0,
        height: 0,
        render_and_frame_size_different: false,
        render_width: 0,
        render_height: 0,
        intra_only: false,
        reset_frame_context: 0,
        refresh_frame_flags: 0,
        ref_frame_idx: [0; Self::REFS_PER_FRAME],
        ref_frame_sign_bias: [0; Self::MAX_REF_FRAMES],
        allow_high_precision_mv: false,
        interpolation_filter: InterpolationFilter::EightTap,
        refresh_frame_context: false,
        frame_parallel_decoding_mode: false,
        frame_context_idx: 0,
        lf: LoopFilterParams::DEFAULT,
        quant: QuantizationParams::DEFAULT,
        seg: SegmentationParams::DEFAULT,
        tile_cols_log2: 0,
        tile_rows_log2: 0,
        lossless: false,
        header_size_in_bytes: 0,
        uncompressed_header_size_in_bytes: 0,
    };

    // A header that only names a slot to show.
    pub fn showing(profile: Profile, slot: u8) -> Self
        ensures { result ≡ showing_header profile slot }
    {
        Self {
            profile,
            show_existing_frame: true,
            frame_to_show_map_idx: slot,
            ..Self::DEFAULT
        }
    }
}

impl Default for Header {
    ghost is_default = { λ h. h ≡ default_header };

    fn default() -> Self {
        Self::DEFAULT
    }
}
