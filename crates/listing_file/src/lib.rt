// The listing of a whole IVF file, as a definition: specs/Listing.antt. proofs/Rows.antt computes it for docs/RULES.md's
// example and others. There is no code; `listing_lister` puts it out as the file arrives.
#![tactic(auto)]
