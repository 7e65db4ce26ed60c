// What a table of fields is: its spelling, its reading, why a reading stops, and the laws that make the two one, for
// one field and for sequences of them. There is no code.
#![tactic(auto)]
