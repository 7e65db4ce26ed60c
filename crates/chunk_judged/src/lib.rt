// A chunk by any judge of its frames: what is answered, and that this is the rules' table. There is no code.
#![tactic(auto)]
