// How a header starts, marker and profile and the frame that is shown again, and the sync code.
#![tactic(auto)]

ghost use Rattle.std.specs.Prelude.{◌≡◌};
ghost use Rattle.base_syntax.specs.Reader.{over};
ghost use Rattle.part_opening.specs.Profile.{read_profile, opening_profile};
ghost use Rattle.part_opening.specs.Opening.{read_opening, opening_of};
ghost use Rattle.part_opening.specs.Sync.{sync_of};
ghost use Rattle.grammar_tables.specs.Reading.{read_sync};

use base_bits::{Cursor, Read, Refusal};

// The profile's number. Profile 3 has a reserved bit after it, which may be 1.
fn parse_profile(s: &[u8], c: Cursor) -> Read<u32>
    ensures { result ≡ over opening_profile (read_profile s.now c.at) }
{
    let (marker, c) = part_field::read_field(s, c, 2)?;
    if marker != 2 {
        return Err(Refusal::FrameMarker);
    }
    let (low, c) = part_field::read_field(s, c, 1)?;
    let (high, c) = part_field::read_field(s, c, 1)?;
    let profile = high * 2 + low;
    let (_, c) = part_field::read_field_if(s, c, profile == 3, 1)?;
    Ok((profile, c))
}

#[derive(Clone, Copy)]
pub struct Opening {
    pub profile: u32,
    pub show_existing_frame: bool,
    pub frame_to_show_map_idx: u8,
}

pub fn parse_opening(s: &[u8], c: Cursor) -> Read<Opening>
    ensures { result ≡ over opening_of (read_opening s.now c.at) }
{
    let (profile, c) = parse_profile(s, c)?;
    let (show, c) = part_field::read_field(s, c, 1)?;
    let shows = show == 1;
    let (slot, c) = part_field::read_field_if(s, c, shows, 3)?;
    let opening = Opening {
        profile,
        show_existing_frame: shows,
        frame_to_show_map_idx: slot as u8,
    };
    Ok((opening, c))
}

pub fn parse_frame_sync_code(s: &[u8], c: Cursor) -> Read<()>
    ensures { result ≡ over sync_of (read_sync s.now c.at) }
{
    let (code, c) = part_field::read_field(s, c, 24)?;
    if code != 0x498342 {
        return Err(Refusal::SyncCode);
    }
    Ok(((), c))
}
