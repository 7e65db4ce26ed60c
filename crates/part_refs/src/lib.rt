// The references of an inter frame, and the slots that it writes.
#![tactic(auto)]

ghost use Rattle.std.specs.Prelude.{◌≡◌};
ghost use Rattle.base_syntax.specs.Reader.{over};
ghost use Rattle.part_refs.specs.Refs.{RefIs, refs_of};
ghost use Rattle.grammar_tables.specs.Reading.{read_refs};
ghost use Rattle.part_refs.specs.Sources.{read_sources, sources_of};

use base_bits::{Cursor, Read};

// A reference: its slot, and its sign bias.
#[derive(Clone, Copy)]
pub struct Ref {
    pub idx: u8,
    pub sign_bias: u8,
}

// One reference, whichever of the three it is.
fn parse_ref(s: &[u8], c: Cursor) -> Read<Ref>
    ensures { RefIs s.now c.at result }
{
    let (idx, c) = part_field::read_field(s, c, 3)?;
    let (sign_bias, c) = part_field::read_field(s, c, 1)?;
    let reference = Ref {
        idx: idx as u8,
        sign_bias: sign_bias as u8,
    };
    Ok((reference, c))
}

#[derive(Clone, Copy)]
pub struct Refs {
    pub last: Ref,
    pub golden: Ref,
    pub altref: Ref,
}

fn parse_refs(s: &[u8], c: Cursor) -> Read<Refs>
    ensures { result ≡ over refs_of (read_refs s.now c.at) }
{
    let (last, c) = parse_ref(s, c)?;
    let (golden, c) = parse_ref(s, c)?;
    let (altref, c) = parse_ref(s, c)?;
    let refs = Refs {
        last,
        golden,
        altref,
    };
    Ok((refs, c))
}

// The slots that a frame writes, one to a bit, and those that it reads.
#[derive(Clone, Copy)]
pub struct Sources {
    pub refresh_frame_flags: u8,
    pub refs: Refs,
}

pub fn parse_sources(s: &[u8], c: Cursor) -> Read<Sources>
    ensures { result ≡ over sources_of (read_sources s.now c.at) }
{
    let (refresh, c) = part_field::read_field(s, c, 8)?;
    let (refs, c) = parse_refs(s, c)?;
    let sources = Sources {
        refresh_frame_flags: refresh as u8,
        refs,
    };
    Ok((sources, c))
}
