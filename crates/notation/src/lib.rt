// What the words of a grammar mean stands in specs/; this crate has no code.
#![tactic(auto)]
