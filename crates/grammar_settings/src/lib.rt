// The settings that a header's field values leave, from the remembered ones. There is no code.
#![tactic(auto)]
