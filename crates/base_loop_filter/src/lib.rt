// The loop filter settings, which a state remembers from frame to frame.
#![tactic(auto)]

ghost use Rattle.std.specs.Prelude.{◌≡◌};
ghost use Rattle.base_loop_filter.specs.LoopFilterParams.{default_filter, reset_filter};

#[derive(Clone, Copy, Debug, PartialEq, Eq)]
pub struct LoopFilterParams {
    pub level: u8,
    pub sharpness: u8,
    pub delta_enabled: bool,
    pub delta_update: bool,
    pub update_ref_delta: [bool; LoopFilterParams::MAX_REF_LF_DELTAS],
    pub ref_deltas: [i8; LoopFilterParams::MAX_REF_LF_DELTAS],
    pub update_mode_delta: [bool; LoopFilterParams::MAX_MODE_LF_DELTAS],
    pub mode_deltas: [i8; LoopFilterParams::MAX_MODE_LF_DELTAS],
}

impl LoopFilterParams {
    pub const MAX_REF_LF_DELTAS: usize = 4;

    pub const MAX_MODE_LF_DELTAS: usize = 2;

    pub const MAX_LOOP_FILTER: u8 = 63;

    pub const DEFAULT: Self = Self {
        level: 0,
        sharpness: 0,
        delta_enabled: false,
        delta_update: false,
        update_ref_delta: [false; Self::MAX_REF_LF_DELTAS],
        ref_deltas: [0; Self::MAX_REF_LF_DELTAS],
        update_mode_delta: [false; Self::MAX_MODE_LF_DELTAS],
        mode_deltas: [0; Self::MAX_MODE_LF_DELTAS],
    };

    // What a frame that owes nothing to earlier frames starts from.
    pub fn reset(mut self) -> Self
        ensures { result ≡ reset_filter self }
    {
        self.ref_deltas = [1, 0, -1, -1];
        self.mode_deltas = [0; Self::MAX_MODE_LF_DELTAS];
        self
    }
}

impl Default for LoopFilterParams {
    ghost is_default = { λ p. p ≡ default_filter };

    fn default() -> Self {
        Self::DEFAULT
    }
}
