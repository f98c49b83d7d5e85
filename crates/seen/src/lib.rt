// What the calls see of an image, and images that answer alike, as definitions and laws. The
// crate has no code.
#![tactic(auto)]
