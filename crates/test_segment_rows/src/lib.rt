// Worked segment records as one table, with the Rust's answers: specs/Rows.antt has the numbers, specs/Table.antt
// states that the definitions give them, proofs/Table.antt computes it. There is no code.
#![tactic(auto)]
