// The eight segment records of a frame: the filter's levels, and the scales and entries of each segment.
#![tactic(auto)]

ghost use Rattle.std.specs.Prelude.{◌≡◌};
ghost use Rattle.base_shared.specs.Lists.{each};
ghost use Rattle.segment_records.specs.Segmentation.{default_segment, segment_with, segment_of};
ghost use Rattle.segment_records.specs.Once.{levels_after, renewed, segment_at};

mod entries;

use base_enums::BitDepth;
use base_loop_filter::LoopFilterParams;
use base_quantization::QuantizationParams;
use base_segmentation::SegmentationParams;
use base_types::Header;
use entries::Entries;
use segment_features::Features;
use segment_grid::Grid;
use segment_quant::Scales;
use segment_tables::Table;

// The level of reference r in mode m stands at r * 2 + m of lvl_lookup.
#[derive(Clone, Copy, Debug, PartialEq, Eq)]
pub struct Segmentation {
    pub lvl_lookup: [u8; 8],
    pub luma_ac_quant_scale: i16,
    pub luma_dc_quant_scale: i16,
    pub chroma_ac_quant_scale: i16,
    pub chroma_dc_quant_scale: i16,
    pub reference_frame_enabled: bool,
    pub reference_frame: i16,
    pub reference_skip_enabled: bool,
}

impl Default for Segmentation {
    ghost is_default = { λ s. s ≡ default_segment };

    fn default() -> Self {
        Self {
            lvl_lookup: [0; 8],
            luma_ac_quant_scale: 0,
            luma_dc_quant_scale: 0,
            chroma_ac_quant_scale: 0,
            chroma_dc_quant_scale: 0,
            reference_frame_enabled: false,
            reference_frame: 0,
            reference_skip_enabled: false,
        }
    }
}

impl Segmentation {
    // The records after a frame. Each depth names its tables: a compiled choice between tables goes entry by entry.
    pub fn update_segmentation(old: [Segmentation; 8], header: Header) -> [Segmentation; 8]
        ensures { result ≡ each (segment_of header) 0 old }
    {
        let depth = header.bit_depth;
        match depth {
            BitDepth::Depth8 => {
                let dc = segment_tables::dc_table(BitDepth::Depth8);
                let ac = segment_tables::ac_table(BitDepth::Depth8);
                renew_all(&dc, &ac, header.lf, header.quant, header.seg, old)
            }
            BitDepth::Depth10 => {
                let dc = segment_tables::dc_table(BitDepth::Depth10);
                let ac = segment_tables::ac_table(BitDepth::Depth10);
                renew_all(&dc, &ac, header.lf, header.quant, header.seg, old)
            }
            BitDepth::Depth12 => {
                let dc = segment_tables::dc_table(BitDepth::Depth12);
                let ac = segment_tables::ac_table(BitDepth::Depth12);
                renew_all(&dc, &ac, header.lf, header.quant, header.seg, old)
            }
        }
    }
}

// What the frame itself has is made once, and then each record.
fn renew_all(
    dc: &Table,
    ac: &Table,
    lf: LoopFilterParams,
    quant: QuantizationParams,
    seg: SegmentationParams,
    old: [Segmentation; 8],
) -> [Segmentation; 8]
    ensures { result ≡ each (segment_at dc.now ac.now lf quant seg) 0 old }
{
    let scales = segment_quant::scales_at(dc, ac, quant, quant.base_q_idx);
    let grid = segment_levels::frame_levels(lf);
    let mut out = old;
    for i in 0..8u8 {
        let f = segment_features::features_of(&seg, i);
        out[i as usize] = renew(dc, ac, lf, quant, scales, grid, f, out[i as usize]);
    }
    out
}

// A record after a frame that has the given scales and levels itself.
fn renew(
    dc: &Table,
    ac: &Table,
    lf: LoopFilterParams,
    quant: QuantizationParams,
    scales: Scales,
    grid: Grid,
    f: Features,
    old: Segmentation,
) -> Segmentation
    ensures { result ≡ renewed dc.now ac.now lf quant scales grid f old }
{
    let after = levels_after(lf, grid, f, old.lvl_lookup);
    segment_with(after, entries::entries_of(dc, ac, quant, scales, f))
}

// The levels of a record after a frame that has the given levels itself.
fn levels_after(lf: LoopFilterParams, frame: Grid, f: Features, old: [u8; 8]) -> [u8; 8]
    ensures { result ≡ levels_after lf frame f old }
{
    let before = segment_grid::grid_of(old);
    let after = segment_levels::levels_of(lf, frame, f.level_active, f.absolute, f.level, before);
    segment_grid::row_of(after)
}

fn segment_with(levels: [u8; 8], e: Entries) -> Segmentation
    ensures { result ≡ segment_with levels e }
{
    Segmentation {
        lvl_lookup: levels,
        luma_ac_quant_scale: e.scales.luma_ac,
        luma_dc_quant_scale: e.scales.luma_dc,
        chroma_ac_quant_scale: e.scales.chroma_ac,
        chroma_dc_quant_scale: e.scales.chroma_dc,
        reference_frame_enabled: e.reference_frame_enabled,
        reference_frame: e.reference_frame,
        reference_skip_enabled: e.reference_skip_enabled,
    }
}
