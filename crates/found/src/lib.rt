// That finding a key answers its value on the table of a document stands in specs/; this crate has no code.
#![tactic(auto)]
