// Tables of nodes and their laws. This crate has definitions and proofs, and no code.
#![tactic(auto)]
