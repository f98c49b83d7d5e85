// Which keys pass a node, counts, positions, and their laws on tables. This crate has
// definitions and proofs, and no code.
#![tactic(auto)]
