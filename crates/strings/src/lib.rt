// Quoted strings, keys and inline bytes: each reads at the cursor, writes its row and its decoded text into the rooms lent as far as those reach, and answers
// the cursor behind it or the place where it is refused.
// Stays (points 5, 6), here and in each file: document, rooms and cursor go together as parameters, and `Ready` and `Quote` are asked of them. A struct that holds the `&mut` slices would need a clause in every contract that it still holds the same ones.
#![tactic(auto)]

mod clean;
mod digits;
mod escapes;
mod hex;
mod keys;
mod quotes;

pub use escapes::{scalar_escape, stands_for};
pub use hex::{inline_bytes, pairs};
pub use keys::{key, name};
pub use quotes::{put_leaf, quoted, string};
