// What is proved about the promise stands in specs/; this crate has no code.
#![tactic(auto)]
