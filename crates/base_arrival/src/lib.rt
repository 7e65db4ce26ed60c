// A file that arrives in blocks, and a machine that is called on what is at hand of it: specs/Arrival.antt. There is no
// code; proofs/Arrival.antt shows for any such machine what all its calls put out.
#![tactic(auto)]
