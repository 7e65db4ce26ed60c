// A frame's header, whole: the record, and the state that it leaves.
#![tactic(auto)]

ghost use Rattle.std.specs.Prelude.{◌≡◌, OnErr};
ghost use Rattle.header_parser.specs.Parts.{remembered_color, shown_header};
ghost use Rattle.header_answer.specs.Answer.{header_told};
ghost use Rattle.header_parser.specs.Answer.{parsed};

use base_bits::{Cursor, Refusal};
use base_enums::Profile;
use base_types::{Header, ReaderState};
use part_color::Color;
use part_opening::Opening;

fn remembered_color(st: ReaderState) -> Color
    ensures { result ≡ remembered_color st }
{
    Color {
        bit_depth: st.bit_depth,
        color_space: st.color_space,
        color_range: st.color_range,
        subsampling_x: st.subsampling_x,
        subsampling_y: st.subsampling_y,
    }
}

// The record of a header that only names a slot to show.
fn shown_header(o: Opening) -> Header
    ensures { result ≡ shown_header o }
{
    Header::showing(Profile::of_two_bits(o.profile), o.frame_to_show_map_idx)
}

// One frame's bytes under a remembered state, which it changes if it accepts them. It never reads past their last.
pub fn parse_frame_header(s: &[u8], st: &mut ReaderState) -> Result<Header, Refusal>
    ensures told { header_told st.new result ≡ parsed s.now st.old }
    ensures kept { OnErr result (st.new ≡ st.old) }
{
    let (opening, c) = part_opening::parse_opening(s, Cursor::start())?;
    if opening.show_existing_frame {
        return Ok(shown_header(opening));
    }
    let profile = opening.profile;
    let color = remembered_color(*st);
    let (lead, c) = header_lead::parse_lead(s, c, profile, color, st.reference_frame_sz)?;
    let independent = header_record::is_independent(lead);
    let (settings, c) = header_tail::parse_settings(s, c, independent, st.lf, st.seg)?;
    let width = lead.shot.picture.sizes.frame.width;
    let (closing, c) = header_tail::parse_closing(s, c, width)?;
    *st = header_state::frame_state(*st, profile, lead, settings);
    Ok(header_record::frame_record(profile, lead, settings, closing, c.at))
}
