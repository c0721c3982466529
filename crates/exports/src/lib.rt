// What the C functions promise stands in specs/; this crate has no code.
#![tactic(auto)]
