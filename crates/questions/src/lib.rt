// The questions of document 01, asked of any lent table, row count and text room. None has a `requires`.
#![tactic(auto)]

mod finding;
mod reading;
mod table;

pub use finding::find;
pub use reading::{text, text_number};

// A row that is asked of is bad, or of another kind, or what stands in it cannot be.
#[derive(Clone, Copy, Debug, PartialEq, Eq)]
pub struct BadRow;
