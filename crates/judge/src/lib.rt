// Blocks and documents: each reader reads at the cursor, writes its rows and its text into the rooms lent as far as those reach, and answers the cursor behind its
// lines, how far a further line would begin, and where its span ends; or the place where it is refused.
// Stays (point 5), here and in each file: the document, the rooms and the cursor go as parameters. A struct that holds the `&mut` slices would need a clause in every contract that it still holds the same ones; the cursor goes by value, as document 01 has it.
#![tactic(auto)]

mod lines;
mod look;
mod nesting;
mod whole;

pub use whole::{blame, check, pass};

// How a block begins: with a dash, with a key, or with neither; then the place where a key is refused.
// Stays (point 1): three ways to go on, none of which is a refusal or nothing.
#[derive(Clone, Copy)]
pub enum Start {
    Dash,
    Key,
    Line(usize),
}
