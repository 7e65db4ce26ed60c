// quantization_params(): the base and the three deltas.
#![tactic(auto)]

ghost use Rattle.std.specs.Prelude.{◌≡◌};
ghost use Rattle.base_syntax.specs.Reader.{over};
ghost use Rattle.part_quantization.specs.Quantizer.{DeltaQIs};
ghost use Rattle.grammar_tables.specs.Reading.{read_quantizer};
ghost use Rattle.grammar_settings.specs.Settings.{quantizer_of, lossless};

use base_bits::{Cursor, Read};
use base_quantization::QuantizationParams;

// A quantizer's delta is 0 where it isn't coded.
fn read_delta_q(s: &[u8], c: Cursor) -> Read<i8>
    ensures { DeltaQIs s.now c.at result }
{
    let (delta, c) = part_coded::read_delta(s, c, 4)?;
    Ok((delta.value, c))
}

pub fn parse_quantization_params(s: &[u8], c: Cursor) -> Read<QuantizationParams>
    ensures { result ≡ over quantizer_of (read_quantizer s.now c.at) }
{
    let (base, c) = part_field::read_field(s, c, 8)?;
    let (y_dc, c) = read_delta_q(s, c)?;
    let (uv_dc, c) = read_delta_q(s, c)?;
    let (uv_ac, c) = read_delta_q(s, c)?;
    let params = QuantizationParams {
        base_q_idx: base as u8,
        delta_q_y_dc: y_dc,
        delta_q_uv_dc: uv_dc,
        delta_q_uv_ac: uv_ac,
    };
    Ok((params, c))
}

pub fn is_lossless(q: QuantizationParams) -> bool
    ensures { result ≡ lossless q }
{
    q.base_q_idx == 0 && q.delta_q_y_dc == 0 && q.delta_q_uv_dc == 0 && q.delta_q_uv_ac == 0
}
