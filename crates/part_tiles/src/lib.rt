// The tiles of a frame: tile_info() of VP9.
#![tactic(auto)]

ghost use Rattle.std.specs.Prelude.{◌≡◌};
ghost use Rattle.base_syntax.specs.Reader.{over};
ghost use Rattle.grammar_tables.specs.Reading.{read_run, read_cols, read_tiles};
ghost use Rattle.grammar_tables.specs.Tables.{superblocks, least, most};
ghost use Rattle.part_tiles.specs.Tiles.{cols_of, tiles_of};

use base_bits::{Cursor, Read};

// The narrowest tile, in superblocks.
const MIN_TILE_WIDTH_B64: u32 = 4;

// The widest, as a u64, so that no shift below loses a bit.
const MAX_TILE_WIDTH_B64: u64 = 64;

// A width in superblocks. No sum is made, so no width wraps.
fn superblocks(width: u32) -> u32
    ensures { result ≡ superblocks width }
{
    width.div_ceil(64)
}

// The logarithm of the fewest columns whose tiles aren't too wide.
fn calc_min_log2_tile_cols(sb64_cols: u32) -> u8
    ensures { result ≡ least sb64_cols }
{
    let w = sb64_cols as u64;
    let mut min_log2: u8 = 0;
    while (MAX_TILE_WIDTH_B64 << min_log2) < w {
        min_log2 += 1;
    }
    min_log2
}

// The logarithm of the most columns whose tiles aren't too narrow, or 0.
fn calc_max_log2_tile_cols(sb64_cols: u32) -> u8
    ensures { result ≡ most sb64_cols }
{
    let mut max_log2: u8 = 0;
    while (sb64_cols >> (max_log2 + 1)) >= MIN_TILE_WIDTH_B64 {
        max_log2 += 1;
    }
    max_log2
}

// The base 2 logarithms of the numbers of tile columns and rows.
#[derive(Clone, Copy)]
pub struct Tiles {
    pub cols_log2: u8,
    pub rows_log2: u8,
}

// How many increments there are: a 0 or the limit ends them.
fn increments(s: &[u8], c: Cursor, limit: u8) -> Read<u8>
    ensures { result ≡ over (λ k. k) (read_run "increment_tile_cols_log2" 1 0 limit s.now c.at) }
{
    let mut at = c;
    for k in 0..limit {
        let (more, next) = part_field::read_field(s, at, 1)?;
        if more != 1 {
            return Ok((k, next));
        }
        at = next;
    }
    Ok((limit, at))
}

// The logarithm of the columns: the least, and one more for each increment.
fn tile_cols(s: &[u8], c: Cursor, width: u32) -> Read<u8>
    ensures { result ≡ over (cols_of width) (read_cols width s.now c.at) }
{
    let sb64_cols = superblocks(width);
    let min_log2 = calc_min_log2_tile_cols(sb64_cols);
    let max_log2 = calc_max_log2_tile_cols(sb64_cols);
    let (count, c) = increments(s, c, max_log2 - min_log2)?;
    Ok((min_log2 + count, c))
}

// The tiles of a frame of any width, 0 too: a remembered size may be anything.
pub fn parse_tile_info(s: &[u8], c: Cursor, width: u32) -> Read<Tiles>
    ensures { result ≡ over (tiles_of width) (read_tiles width s.now c.at) }
{
    let (cols_log2, c) = tile_cols(s, c, width)?;
    let (rows, c) = part_field::read_field(s, c, 1)?;
    let (more, c) = part_field::read_field_if(s, c, rows == 1, 1)?;
    let tiles = Tiles {
        cols_log2,
        rows_log2: (rows + more) as u8,
    };
    Ok((tiles, c))
}
