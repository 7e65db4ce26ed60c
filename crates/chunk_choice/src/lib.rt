// The part of a chunk that a picture is taken from: of the new chunk or of the last good one.
#![tactic(auto)]

ghost use Rattle.chunk_choice.specs.Choice.{PartOf, ChoiceOf};

// A part that lies outside is the empty part at the chunk's start.
fn part<'a>(s: &'a [u8], offset: usize, size: usize) -> &'a [u8]
    ensures { PartOf s.entry offset size result }
{
    if offset > s.len() {
        return &s[0..0];
    }
    // What is left is compared, since the part's end may pass 64 bits.
    if size > s.len() - offset {
        return &s[0..0];
    }
    &s[offset..offset + size]
}

// Each arm lends on its own chunk: the part of the new one for yes, of the last good one for no.
pub fn choose_picture<'a>(
    new: &'a [u8],
    last_good: &'a [u8],
    yes: bool,
    offset: usize,
    size: usize,
) -> &'a [u8]
    ensures { ChoiceOf new.entry last_good.entry yes offset size result }
{
    if yes {
        part(new, offset, size)
    } else {
        part(last_good, offset, size)
    }
}
