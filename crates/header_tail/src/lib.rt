// A frame's header from its loop filter on: the settings, the tiles, and the size of the compressed header.
#![tactic(auto)]

ghost use Rattle.std.specs.Prelude.{◌≡◌};
ghost use Rattle.base_syntax.specs.Reader.{over};
ghost use Rattle.header_tail.specs.Settings.{starting_filter, starting_segmentation, SettingsAre};
ghost use Rattle.header_tail.specs.Closing.{read_closing, closing_of};

use base_bits::{Cursor, Read};
use base_loop_filter::LoopFilterParams;
use base_quantization::QuantizationParams;
use base_segmentation::SegmentationParams;
use part_tiles::Tiles;

#[derive(Clone, Copy)]
pub struct Settings {
    pub lf: LoopFilterParams,
    pub quant: QuantizationParams,
    pub seg: SegmentationParams,
}

fn starting_filter(independent: bool, lf: LoopFilterParams) -> LoopFilterParams
    ensures { result ≡ starting_filter independent lf }
{
    if independent { lf.reset() } else { lf }
}

fn starting_segmentation(independent: bool, seg: SegmentationParams) -> SegmentationParams
    ensures { result ≡ starting_segmentation independent seg }
{
    if independent { seg.reset() } else { seg }
}

// An independent frame forgets the deltas and features of the frames before it.
pub fn parse_settings(
    s: &[u8],
    c: Cursor,
    independent: bool,
    lf: LoopFilterParams,
    seg: SegmentationParams,
) -> Read<Settings>
    ensures { SettingsAre s.now c.at (starting_filter independent lf) (starting_segmentation independent seg) result }
{
    let lf = starting_filter(independent, lf);
    let seg = starting_segmentation(independent, seg);
    let (lf, c) = part_loop_filter::parse_loop_filter_params(s, c, lf)?;
    let (quant, c) = part_quantization::parse_quantization_params(s, c)?;
    let (seg, c) = part_segmentation::parse_segmentation_params(s, c, seg)?;
    Ok((Settings { lf, quant, seg }, c))
}

#[derive(Clone, Copy)]
pub struct Closing {
    pub tiles: Tiles,
    pub header_size_in_bytes: u16,
}

pub fn parse_closing(s: &[u8], c: Cursor, width: u32) -> Read<Closing>
    ensures { result ≡ over (closing_of width) (read_closing width s.now c.at) }
{
    let (tiles, c) = part_tiles::parse_tile_info(s, c, width)?;
    let (bytes, c) = part_field::read_field(s, c, 16)?;
    let closing = Closing {
        tiles,
        header_size_in_bytes: bytes as u16,
    };
    Ok((closing, c))
}
