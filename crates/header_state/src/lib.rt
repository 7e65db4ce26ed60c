// The state after a frame, put together from the parts that were read and the state before.
#![tactic(auto)]

ghost use Rattle.std.specs.Prelude.{◌≡◌};
ghost use Rattle.header_state.specs.State.{range_after, frame_state};

use base_enums::ColorRange;
use base_types::ReaderState;
use header_lead::Lead;
use header_tail::Settings;

// An intra-only frame of profile 0 says nothing of the range.
fn range_after(st: ReaderState, profile: u32, l: Lead) -> ColorRange
    ensures { result ≡ range_after st profile l }
{
    let kept = st.color_range;
    let color = l.shot.picture.color;
    let coded = color.color_range;
    if (profile == 0) & l.shot.kind.intra_only {
        kept
    } else {
        coded
    }
}

pub fn frame_state(st: ReaderState, profile: u32, l: Lead, g: Settings) -> ReaderState
    ensures { result ≡ frame_state st profile l g }
{
    let color = l.shot.picture.color;
    let bit_depth = color.bit_depth;
    let color_space = color.color_space;
    let lf = g.lf;
    let seg = g.seg;
    let slots = st.reference_frame_sz;
    let size = l.shot.picture.sizes.frame;
    ReaderState {
        bit_depth,
        subsampling_x: color.subsampling_x,
        subsampling_y: color.subsampling_y,
        color_space,
        color_range: range_after(st, profile, l),
        lf,
        seg,
        reference_frame_sz: base_slots::refresh(
            slots,
            size,
            l.shot.picture.sources.refresh_frame_flags,
        ),
    }
}
