// The eight reference slots, and what a frame leaves in them.
#![tactic(auto)]

ghost use Rattle.std.specs.Prelude.{◌<◌, ◌≡◌};
ghost use Rattle.base_slots.specs.Slots.{slot_after, refreshed};

use base_size::FrameSize;

fn slot_after(flags: u8, i: usize, new: FrameSize, old: FrameSize) -> FrameSize
    requires { i < 8 }
    ensures { result ≡ slot_after flags new i old }
{
    if (flags >> i) % 2 == 1 { new } else { old }
}

// Slot i takes the new size where bit i of the flags is 1, and else keeps its own.
pub fn refresh(
    slots: [FrameSize; FrameSize::REMEMBERED],
    new: FrameSize,
    flags: u8,
) -> [FrameSize; FrameSize::REMEMBERED]
    ensures { result ≡ refreshed flags new slots }
{
    let mut out = slots;
    for i in 0..FrameSize::REMEMBERED {
        out[i] = slot_after(flags, i, new, out[i]);
    }
    out
}
