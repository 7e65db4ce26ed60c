// The grammar of a frame's header: which bits are one, and what is answered of it. specs/ says it from VP9's tables,
// proofs/ ties it to the readings that the code is proved equal to. There is no code.
#![tactic(auto)]
