// Integers' texts compared as numbers (document 01, Questions). No function has a `requires`; of a `Text`, `run` alone asks for a byte at its place.
#![tactic(auto)]

mod comparing;
mod integer;
mod numeral;
mod text;

pub use comparing::compare;
pub use integer::is_integer;
pub use text::Text;

// A text compared isn't an integer's.
#[derive(Clone, Copy, Debug, PartialEq, Eq)]
pub struct NotInt;
