// The filter levels of a segment: VP9's loop filter frame init process, section 8.8.1.
#![tactic(auto)]

ghost use Rattle.std.specs.Prelude.{◌≡◌, ◌+ℤ◌};
ghost use Rattle.segment_levels.specs.Levels.{scaled, level_moved, pair_of, delta_grid, levels_at};
ghost use Rattle.segment_levels.specs.Once.{frame_levels, kept, levels_from};

use base_loop_filter::LoopFilterParams;
use segment_grid::Grid;

const MAX_LEVEL: u8 = LoopFilterParams::MAX_LOOP_FILTER;

// A delta times 2^n, where n goes by the frame's level, not the segment's.
fn scale(frame: u8, delta: i8) -> i16
    ensures { result ≡ scaled frame delta }
{
    delta as i16 * (1i16 << (frame / 32))
}

// What a reference and a mode add. No two deltas leave 16 bits.
fn both(frame: u8, reference: i8, mode: i8) -> i16
    ensures { result ≡ scaled frame reference +ℤ scaled frame mode }
{
    scale(frame, reference) + scale(frame, mode)
}

fn add(level: u8, delta: i16) -> u8
    ensures { result ≡ level_moved level delta }
{
    segment_clamp::moved_by(level, delta, MAX_LEVEL)
}

// The levels of one reference in the two modes.
fn pair(frame: u8, level: u8, reference: i8, modes: [i8; 2]) -> [u8; 2]
    ensures { result ≡ pair_of frame level reference modes }
{
    [
        add(level, both(frame, reference, modes[0])),
        add(level, both(frame, reference, modes[1])),
    ]
}

// Intra has a level in mode 0 alone, so its other entry stays.
fn delta_grid(frame: u8, level: u8, refs: [i8; 4], modes: [i8; 2], old: Grid) -> Grid
    ensures { result ≡ delta_grid frame level refs modes old }
{
    let intra = [add(level, scale(frame, refs[0])), old[0][1]];
    let last = pair(frame, level, refs[1], modes);
    let golden = pair(frame, level, refs[2], modes);
    let alt = pair(frame, level, refs[3], modes);
    [intra, last, golden, alt]
}

// The levels of a segment whose own level is known.
fn levels_at(lf: LoopFilterParams, level: u8, old: Grid) -> Grid
    ensures { result ≡ levels_at lf level old }
{
    if lf.level == 0 {
        return [[0; 2]; 4];
    }
    if lf.delta_enabled {
        delta_grid(lf.level, level, lf.ref_deltas, lf.mode_deltas, old)
    } else {
        [[level; 2]; 4]
    }
}

// The levels by the frame's own level, before any entry is kept.
pub fn frame_levels(lf: LoopFilterParams) -> Grid
    ensures { result ≡ frame_levels lf }
{
    levels_at(
        lf,
        segment_clamp::clamp_to(lf.level as i32, MAX_LEVEL),
        [[0; 2]; 4],
    )
}

// The frame's own levels with the entry that a segment keeps.
fn keep(lf: LoopFilterParams, frame: Grid, old: Grid) -> Grid
    ensures { result ≡ kept lf frame old }
{
    if lf.level == 0 {
        return frame;
    }
    if lf.delta_enabled {
        let intra = [frame[0][0], old[0][1]];
        let last = frame[1];
        let golden = frame[2];
        let alt = frame[3];
        [intra, last, golden, alt]
    } else {
        frame
    }
}

// The levels of a segment, by its level feature with data d. The frame's own levels serve where the feature isn't
// active.
pub fn levels_of(
    lf: LoopFilterParams,
    frame: Grid,
    active: bool,
    absolute: bool,
    d: i16,
    old: Grid,
) -> Grid
    ensures { result ≡ levels_from lf frame active absolute d old }
{
    if active {
        let level = segment_clamp::altered(lf.level, absolute, d, MAX_LEVEL);
        levels_at(lf, level, old)
    } else {
        keep(lf, frame, old)
    }
}
