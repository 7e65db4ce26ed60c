// A frame's size in pixels.
#![tactic(auto)]

ghost use Rattle.std.specs.Prelude.{◌≡◌};
ghost use Rattle.base_size.specs.FrameSize.{no_size};

#[derive(Clone, Copy, Debug, PartialEq, Eq)]
pub struct FrameSize {
    pub width: u32,
    pub height: u32,
}

impl FrameSize {
    // How many sizes a reader remembers: VP9's NUM_REF_FRAMES.
    pub const REMEMBERED: usize = 8;
}

impl Default for FrameSize {
    ghost is_default = { λ s. s ≡ no_size };

    fn default() -> Self {
        Self {
            width: 0,
            height: 0,
        }
    }
}
