// What a frame's header is answered. It stands below the reader, so that a chunk can be proved over any judge of frames.
// There is no code.
#![tactic(auto)]
