// Every call at once, as definitions and laws on their outcomes. The crate has no code.
#![tactic(auto)]
