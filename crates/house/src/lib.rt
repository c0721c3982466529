// What is proved of the house style stands in specs/; this crate has no code.
#![tactic(auto)]
