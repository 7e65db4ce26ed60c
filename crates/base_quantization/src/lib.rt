// The quantizer settings of a frame.
#![tactic(auto)]

ghost use Rattle.std.specs.Prelude.{◌≡◌};
ghost use Rattle.base_quantization.specs.QuantizationParams.{default_quantization};

#[derive(Clone, Copy, Debug, PartialEq, Eq)]
pub struct QuantizationParams {
    pub base_q_idx: u8,
    pub delta_q_y_dc: i8,
    pub delta_q_uv_dc: i8,
    pub delta_q_uv_ac: i8,
}

impl QuantizationParams {
    pub const DEFAULT: Self = Self {
        base_q_idx: 0,
        delta_q_y_dc: 0,
        delta_q_uv_dc: 0,
        delta_q_uv_ac: 0,
    };
}

impl Default for QuantizationParams {
    ghost is_default = { λ p. p ≡ default_quantization };

    fn default() -> Self {
        Self::DEFAULT
    }
}
