// The deltas of loop_filter_params(): what references and modes add to the level.
#![tactic(auto)]

ghost use Rattle.std.specs.Prelude.{◌≡◌};
ghost use Rattle.base_syntax.specs.Reader.{over};
ghost use Rattle.part_loop_deltas.specs.LoopDeltas.{DeltasAre, delta_moved, loop_deltas_of, read_loop_deltas};

use base_bits::{Cursor, Read};
use base_loop_filter::LoopFilterParams;
use part_coded::Delta;

// What is added, and which of it the frame's header codes.
#[derive(Clone, Copy)]
struct Deltas<const N: usize> {
    coded: [bool; N],
    values: [i8; N],
}

// A delta that isn't coded keeps its value.
fn move_delta(d: Delta, old: i8) -> i8
    ensures { result ≡ delta_moved d old }
{
    if d.coded { d.value } else { old }
}

fn read_deltas<const N: usize>(s: &[u8], c: Cursor, old: [i8; N]) -> Read<Deltas<N>>
    ensures { DeltasAre s.now c.at N old.entry result }
{
    let mut coded = [false; N];
    let mut values = old;
    let mut at = c;
    for i in 0..N {
        let (delta, next) = part_coded::read_delta(s, at, 6)?;
        coded[i] = delta.coded;
        values[i] = move_delta(delta, old[i]);
        at = next;
    }
    Ok((Deltas { coded, values }, at))
}

// What stands where loop_filter_delta_enabled is 1.
pub fn parse_loop_deltas(s: &[u8], c: Cursor, old: LoopFilterParams) -> Read<LoopFilterParams>
    ensures { result ≡ over (loop_deltas_of old) (read_loop_deltas s.now c.at) }
{
    let (update, c) = part_field::read_field(s, c, 1)?;
    let mut lf = old;
    lf.delta_update = update == 1;
    if update != 1 {
        return Ok((lf, c));
    }
    let (Deltas { coded, values }, c) = read_deltas(s, c, old.ref_deltas)?;
    lf.update_ref_delta = coded;
    lf.ref_deltas = values;
    let (Deltas { coded, values }, c) = read_deltas(s, c, old.mode_deltas)?;
    lf.update_mode_delta = coded;
    lf.mode_deltas = values;
    Ok((lf, c))
}
