// When each number is answered, in the words of documents 01 and 02, as definitions and laws. The
// crate has no code.
#![tactic(auto)]
