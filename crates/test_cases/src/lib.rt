// docs/RULES.md's cases "on each side of the line", as one table: specs/Table.antt states it, proofs/Table.antt
// computes it. There is no code.
#![tactic(auto)]
