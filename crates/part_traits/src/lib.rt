// What a frame says of itself outside the groups: its traits, its kind, the frame context.
#![tactic(auto)]

ghost use Rattle.std.specs.Prelude.{◌≡◌};
ghost use Rattle.base_syntax.specs.Reader.{over};
ghost use Rattle.part_traits.specs.Traits.{read_traits, traits_of};
ghost use Rattle.part_traits.specs.Kind.{read_kind, kind_of};
ghost use Rattle.part_traits.specs.Context.{read_context, context_of};

use base_bits::{Cursor, Read};

// A key frame has frame type 0.
#[derive(Clone, Copy)]
pub struct Traits {
    pub key: bool,
    pub show_frame: bool,
    pub error_resilient_mode: bool,
}

pub fn parse_traits(s: &[u8], c: Cursor) -> Read<Traits>
    ensures { result ≡ over traits_of (read_traits s.now c.at) }
{
    let (kind, c) = part_field::read_field(s, c, 1)?;
    let (show, c) = part_field::read_field(s, c, 1)?;
    let (resilient, c) = part_field::read_field(s, c, 1)?;
    let traits = Traits {
        key: kind == 0,
        show_frame: show == 1,
        error_resilient_mode: resilient == 1,
    };
    Ok((traits, c))
}

#[derive(Clone, Copy)]
pub struct Kind {
    pub intra_only: bool,
    pub reset_frame_context: u8,
}

// What a frame that is no key frame says of itself: only a hidden one can be intra-only.
pub fn parse_kind(s: &[u8], c: Cursor, show_frame: bool, error_resilient_mode: bool) -> Read<Kind>
    ensures { result ≡ over kind_of (read_kind show_frame error_resilient_mode s.now c.at) }
{
    let (intra, c) = part_field::read_field_if(s, c, !show_frame, 1)?;
    let (reset, c) = part_field::read_field_if(s, c, !error_resilient_mode, 2)?;
    let kind = Kind {
        intra_only: intra == 1,
        reset_frame_context: reset as u8,
    };
    Ok((kind, c))
}

#[derive(Clone, Copy)]
pub struct Context {
    pub refresh_frame_context: bool,
    pub frame_parallel_decoding_mode: bool,
    pub frame_context_idx: u8,
}

// An error-resilient frame refreshes no context and is decoded in parallel.
pub fn parse_context(s: &[u8], c: Cursor, error_resilient_mode: bool) -> Read<Context>
    ensures { result ≡ over (context_of error_resilient_mode) (read_context error_resilient_mode s.now c.at) }
{
    let coded = !error_resilient_mode;
    let (refresh, c) = part_field::read_field_if(s, c, coded, 1)?;
    let (parallel, c) = part_field::read_field_if(s, c, coded, 1)?;
    let (idx, c) = part_field::read_field(s, c, 2)?;
    let context = Context {
        refresh_frame_context: refresh == 1,
        frame_parallel_decoding_mode: error_resilient_mode || parallel == 1,
        frame_context_idx: idx as u8,
    };
    Ok((context, c))
}
