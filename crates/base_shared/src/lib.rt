// What definitions and proofs of many crates share. There is no code.
#![tactic(auto)]
