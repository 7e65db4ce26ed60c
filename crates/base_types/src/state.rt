// What a reader remembers from frame to frame.
ghost use Rattle.std.specs.Prelude.{◌≡◌};
ghost use Rattle.base_types.specs.ReaderState.{fresh_state};

use base_enums::{BitDepth, ColorRange, ColorSpace};
use base_loop_filter::LoopFilterParams;
use base_segmentation::SegmentationParams;
use base_size::FrameSize;

#[derive(Clone, Copy, Debug, PartialEq, Eq)]
pub struct ReaderState {
    pub bit_depth: BitDepth,
    pub subsampling_x: bool,
    pub subsampling_y: bool,
    pub color_space: ColorSpace,
    pub color_range: ColorRange,
    pub lf: LoopFilterParams,
    pub seg: SegmentationParams,
    pub reference_frame_sz: [FrameSize; ReaderState::REF_FRAMES],
}

impl ReaderState {
    pub const REF_FRAMES: usize = FrameSize::REMEMBERED;
}

// A reader's state before it has read anything.
impl Default for ReaderState {
    ghost is_default = { λ s. s ≡ fresh_state };

    fn default() -> Self {
        Self {
            bit_depth: BitDepth::Depth8,
            subsampling_x: false,
            subsampling_y: false,
            color_space: ColorSpace::Unknown,
            color_range: ColorRange::StudioSwing,
            lf: LoopFilterParams::DEFAULT,
            seg: SegmentationParams::DEFAULT,
            reference_frame_sz: [FrameSize::default(); Self::REF_FRAMES],
        }
    }
}
