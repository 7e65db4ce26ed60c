// The segmentation settings of a frame: segmentation_params().
#![tactic(auto)]

ghost use Rattle.part_segmentation.specs.Segmentation.{SegmentationIs};

use base_bits::{Cursor, Read};
use base_segmentation::SegmentationParams;

// The two updates are false unless they are read; what isn't coded keeps its remembered value.
pub fn parse_segmentation_params(
    s: &[u8],
    c: Cursor,
    old: SegmentationParams,
) -> Read<SegmentationParams>
    ensures { SegmentationIs s.now c.at old result }
{
    let (enabled, c) = part_field::read_field(s, c, 1)?;
    let mut seg = old;
    seg.enabled = enabled == 1;
    seg.update_map = false;
    seg.update_data = false;
    if enabled != 1 {
        return Ok((seg, c));
    }
    let (seg, c) = part_segment_map::parse_map(s, c, seg)?;
    part_segment_data::parse_data(s, c, seg)
}
