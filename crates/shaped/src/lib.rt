// What is proved of the trees that documents have stands in specs/; this crate has no code.
#![tactic(auto)]
