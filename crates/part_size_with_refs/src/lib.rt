// frame_size_with_refs(): the size that a reference gives, or one of its own.
#![tactic(auto)]

ghost use Rattle.std.specs.Prelude.{◌≡◌};
ghost use Rattle.base_syntax.specs.Reader.{over};
ghost use Rattle.grammar_tables.specs.Reading.{read_found};
ghost use Rattle.part_size_with_refs.specs.SizeWithRefs.{found_ref, ref_slot, slot_size, read_size_with_refs, size_with_refs_of};

use base_bits::{Cursor, Read};
use base_size::FrameSize;
use part_refs::Refs;
use part_sizes::Sizes;

const REFS_PER_FRAME: usize = 3;

// Which reference gives the size, if any: reading stops at the first of the three flags that is 1.
fn find_ref(s: &[u8], c: Cursor) -> Read<Option<usize>>
    ensures { result ≡ over found_ref (read_found s.now c.at) }
{
    let mut at = c;
    let mut i: usize = 0;
    let found = loop {
        if i >= REFS_PER_FRAME {
            break None;
        }
        let (flag, next) = part_field::read_field(s, at, 1)?;
        at = next;
        if flag != 0 {
            break Some(i);
        }
        i += 1;
    };
    Ok((found, at))
}

// The slot of reference i.
fn ref_slot(refs: Refs, i: usize) -> u8
    ensures { result ≡ ref_slot refs i }
{
    let slots = [refs.last.idx, refs.golden.idx, refs.altref.idx];
    slots.get(i).copied().unwrap_or(0)
}

// The size that a slot remembers: 0x0 past the last slot.
fn slot_size(slots: [FrameSize; FrameSize::REMEMBERED], slot: u8) -> FrameSize
    ensures { result ≡ slot_size slots slot }
{
    slots.get(slot as usize).copied().unwrap_or_default()
}

// The sizes of an inter frame, whose size is that of a reference or one of its own.
pub fn parse_frame_size_with_refs(
    s: &[u8],
    c: Cursor,
    refs: Refs,
    slots: [FrameSize; FrameSize::REMEMBERED],
) -> Read<Sizes>
    ensures { result ≡ over (size_with_refs_of slots refs) (read_size_with_refs s.now c.at) }
{
    let (found, c) = find_ref(s, c)?;
    match found {
        Some(i) => part_sizes::parse_render_size(s, c, slot_size(slots, ref_slot(refs, i))),
        None => part_sizes::parse_sizes(s, c),
    }
}
