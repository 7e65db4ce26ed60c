// The scales of a segment and its reference and skip entries.
ghost use Rattle.std.specs.Prelude.{◌≡◌};
ghost use Rattle.segment_records.specs.Entries.{entries_with};
ghost use Rattle.segment_records.specs.Once.{scales_from};

use base_quantization::QuantizationParams;
use segment_features::Features;
use segment_quant::Scales;
use segment_tables::Table;

const MAX_Q_INDEX: u8 = 255;

#[derive(Clone, Copy, Debug, PartialEq, Eq)]
pub struct Entries {
    pub scales: Scales,
    pub reference_frame_enabled: bool,
    pub reference_frame: i16,
    pub reference_skip_enabled: bool,
}

// The frame's own scales serve every segment without an active feature.
fn scales_of(
    dc: &Table,
    ac: &Table,
    quant: QuantizationParams,
    frame: Scales,
    f: Features,
) -> Scales
    ensures { result ≡ scales_from dc.now ac.now quant frame f }
{
    if f.quantizer_active {
        let b = segment_clamp::altered(quant.base_q_idx, f.absolute, f.quantizer, MAX_Q_INDEX);
        segment_quant::scales_at(dc, ac, quant, b)
    } else {
        frame
    }
}

pub fn entries_of(
    dc: &Table,
    ac: &Table,
    quant: QuantizationParams,
    frame: Scales,
    f: Features,
) -> Entries
    ensures { result ≡ entries_with (scales_from dc.now ac.now quant frame f) f }
{
    let scales = scales_of(dc, ac, quant, frame, f);
    Entries {
        scales,
        reference_frame_enabled: f.reference_enabled,
        reference_frame: f.reference,
        reference_skip_enabled: f.skip_enabled,
    }
}
