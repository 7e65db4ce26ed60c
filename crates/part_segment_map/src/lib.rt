// The map's part of segmentation_params(), with its probabilities.
#![tactic(auto)]

ghost use Rattle.part_segment_map.specs.Probs.{ProbsAre, ProbsAreIf};
ghost use Rattle.part_segment_map.specs.Map.{MapIs};

use base_bits::{Cursor, Read};
use base_segmentation::SegmentationParams;

fn read_probs<const N: usize>(s: &[u8], c: Cursor) -> Read<[u8; N]>
    ensures { ProbsAre s.now c.at N result }
{
    let mut probs = [255; N];
    let mut at = c;
    for i in 0..N {
        let (prob, next) = part_coded::read_prob(s, at)?;
        probs[i] = prob;
        at = next;
    }
    Ok((probs, at))
}

// Probabilities that are there only sometimes: all are 255 where they aren't.
fn read_probs_if<const N: usize>(s: &[u8], c: Cursor, there: bool) -> Read<[u8; N]>
    ensures { ProbsAreIf there s.now c.at N result }
{
    if there {
        read_probs(s, c)
    } else {
        Ok(([255; N], c))
    }
}

// The map's part. Without an update the probabilities keep their values; with one, those that aren't coded become 255.
pub fn parse_map(s: &[u8], c: Cursor, old: SegmentationParams) -> Read<SegmentationParams>
    ensures { MapIs s.now c.at old result }
{
    let (update, c) = part_field::read_field(s, c, 1)?;
    let (tree_probs, c) = read_probs_if(s, c, update == 1)?;
    let (temporal, c) = part_field::read_field_if(s, c, update == 1, 1)?;
    let (pred_probs, c) = read_probs_if(s, c, temporal == 1)?;
    let mut seg = old;
    seg.update_map = update == 1;
    if update == 1 {
        seg.tree_probs = tree_probs;
        seg.pred_probs = pred_probs;
        seg.temporal_update = temporal == 1;
    }
    Ok((seg, c))
}
