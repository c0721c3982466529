// Fields without parts, in stored bytes that one field holds: whether they are those of a value, and the rooms filled from them.
#![tactic(auto)]

mod filling;
mod heads;
mod keys;
mod tested;

pub use filling::{FilledAll, children, fill};
pub use heads::{behind, is_field, tag};
pub use tested::{Tested, child, key, value};
