// Block strings, block bytes and joined strings: each reads at the cursor, writes its row and its text into the rooms lent as far as those reach, and answers
// the cursor behind its lines, how far a further line would begin, and where its span ends; or the place where it is refused.
// Stays (points 5, 6), here and in each file: document, rooms and cursor go together as parameters, and `Ready`, `Begun` and `Asked` are asked of them. A struct that holds the `&mut` slices would need a clause in every contract that it still holds the same ones.
#![tactic(auto)]

mod body;
mod hex;
mod leaf;
mod lines;
mod quotes;
mod text;

pub use hex::{open_bytes, property_bytes};
pub use quotes::joined;
pub use text::{open_string, property_string};
