// A cut between two writes of a store, and what mending leaves, as definitions and laws. The
// crate has no code.
#![tactic(auto)]
