// What is proved of the language and of any reader that meets the promise stands in specs/; this crate has no code.
#![tactic(auto)]
