// What is proved about spans, counts and kinds stands in specs/; this crate has no code.
#![tactic(auto)]
