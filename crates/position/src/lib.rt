// Document 02, Ask 7: the calls with counts, as definitions and laws. The crate has no code.
#![tactic(auto)]
