// A frame's header from frame_type to frame_context_idx: what kind of frame it is, its picture, and its context.
#![tactic(auto)]

ghost use Rattle.std.specs.Prelude.{◌≡◌};
ghost use Rattle.base_syntax.specs.Reader.{over};
ghost use Rattle.header_lead.specs.Shot.{read_shot, shot_of};
ghost use Rattle.header_lead.specs.Lead.{read_lead, lead_of};

use base_bits::{Cursor, Read};
use base_size::FrameSize;
use header_picture::Picture;
use part_color::Color;
use part_traits::{Context, Kind, Traits};

#[derive(Clone, Copy)]
pub struct Shot {
    pub kind: Kind,
    pub picture: Picture,
}

// A key frame isn't intra-only, and resets no context by number.
fn parse_shot(
    s: &[u8],
    c: Cursor,
    profile: u32,
    traits: Traits,
    color: Color,
    slots: [FrameSize; FrameSize::REMEMBERED],
) -> Read<Shot>
    ensures { result ≡ over (shot_of profile traits.key color slots) (read_shot profile traits.key traits.show_frame traits.error_resilient_mode s.now c.at) }
{
    if traits.key {
        let kind = Kind {
            intra_only: false,
            reset_frame_context: 0,
        };
        let (picture, c) = header_picture::parse_key(s, c, profile)?;
        return Ok((Shot { kind, picture }, c));
    }
    let (kind, c) = part_traits::parse_kind(s, c, traits.show_frame, traits.error_resilient_mode)?;
    let read = if kind.intra_only {
        header_picture::parse_intra_only(s, c, profile)
    } else {
        header_inter::parse_inter(s, c, color, slots)
    };
    let (picture, c) = read?;
    Ok((Shot { kind, picture }, c))
}

#[derive(Clone, Copy)]
pub struct Lead {
    pub traits: Traits,
    pub shot: Shot,
    pub context: Context,
}

pub fn parse_lead(
    s: &[u8],
    c: Cursor,
    profile: u32,
    color: Color,
    slots: [FrameSize; FrameSize::REMEMBERED],
) -> Read<Lead>
    ensures { result ≡ over (lead_of profile color slots) (read_lead profile s.now c.at) }
{
    let (traits, c) = part_traits::parse_traits(s, c)?;
    let (shot, c) = parse_shot(s, c, profile, traits, color, slots)?;
    let (context, c) = part_traits::parse_context(s, c, traits.error_resilient_mode)?;
    let lead = Lead {
        traits,
        shot,
        context,
    };
    Ok((lead, c))
}
