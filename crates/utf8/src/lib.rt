// Characters in UTF-8, as a table of states that is proved to be the definition's; it stands in specs/, and this crate has no code.
#![tactic(auto)]
