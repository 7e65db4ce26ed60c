// What a frame says of its picture: colour, sizes, references and motion; and the pictures of key frames and
// intra-only frames.
#![tactic(auto)]

ghost use Rattle.std.specs.Prelude.{◌≡◌};
ghost use Rattle.base_syntax.specs.Reader.{over};
ghost use Rattle.header_picture.specs.Key.{read_key, key_of};
ghost use Rattle.header_picture.specs.IntraOnly.{read_intra_only, intra_only_of};
ghost use Rattle.header_picture.specs.Picture.{intra_picture};

use base_bits::{Cursor, Read};
use base_enums::InterpolationFilter;
use part_color::Color;
use part_motion::Motion;
use part_refs::{Ref, Refs, Sources};
use part_sizes::Sizes;

#[derive(Clone, Copy)]
pub struct Picture {
    pub color: Color,
    pub sources: Sources,
    pub sizes: Sizes,
    pub motion: Motion,
}

impl Picture {
    // A picture without references.
    fn intra(color: Color, refresh_frame_flags: u8, sizes: Sizes) -> Picture
        ensures { result ≡ intra_picture color refresh_frame_flags sizes }
    {
        let none = Ref {
            idx: 0,
            sign_bias: 0,
        };
        Picture {
            color,
            sources: Sources {
                refresh_frame_flags,
                refs: Refs {
                    last: none,
                    golden: none,
                    altref: none,
                },
            },
            sizes,
            motion: Motion {
                allow_high_precision_mv: false,
                interpolation_filter: InterpolationFilter::EightTap,
            },
        }
    }
}

pub fn parse_key(s: &[u8], c: Cursor, profile: u32) -> Read<Picture>
    ensures { result ≡ over (key_of profile) (read_key profile s.now c.at) }
{
    let ((), c) = part_opening::parse_frame_sync_code(s, c)?;
    let (color, c) = part_color::parse_color_config(s, c, profile)?;
    let (sizes, c) = part_sizes::parse_sizes(s, c)?;
    Ok((Picture::intra(color, 255, sizes), c))
}

pub fn parse_intra_only(s: &[u8], c: Cursor, profile: u32) -> Read<Picture>
    ensures { result ≡ over (intra_only_of profile) (read_intra_only profile s.now c.at) }
{
    let ((), c) = part_opening::parse_frame_sync_code(s, c)?;
    let (color, c) = part_color::parse_intra_color(s, c, profile)?;
    let (refresh, c) = part_field::read_field(s, c, 8)?;
    let slots = refresh as u8;
    let (sizes, c) = part_sizes::parse_sizes(s, c)?;
    Ok((Picture::intra(color, slots, sizes), c))
}
