// The record of a header's field values, and the state after it. There is no code.
#![tactic(auto)]
