// Runs of calls on one image, as definitions and laws. The crate has no code.
#![tactic(auto)]
