// The long form of a whole IVF file (docs/LONG-FORM.md), as a definition: specs/Items.antt. proofs/Rows.antt computes a
// worked file's. There is no code; `listing_tracer` yields the items as the file arrives.
#![tactic(auto)]
