// The reading cursor, readers of characters, comments and line comments, and the test for CHAR.
#![tactic(auto)]

ghost use Rattle.std.specs.Prelude.{◌+◌, drop};
ghost use Rattle.exact.specs.Class.{is, only};
ghost use Rattle.exact.specs.Lang.{byte_r};
ghost use Rattle.characters.specs.Reads.{ByteRead, ReadAt, Skips};

mod digits;
mod keys;
mod line;
mod plain;
mod states;
mod table;
mod value;

pub use keys::is_key;
pub use line::{comment, optional_comment};
pub use plain::is_plain;
use states::whole;
pub use table::bad_char;
use table::walk_end;
use value::value;

// The reading cursor: the place that a reader has come to.
#[derive(Clone, Copy)]
pub struct Reading {
    pub at: usize,
}

// What taking a byte gives: the byte and the place behind it; none at the document's end.
pub type Took = Option<(u8, Reading)>;

// What reading a character gives: its scalar value and the place behind it, or the place of the first byte that no character has there.
pub type Read = Result<(u32, Reading), usize>;

// What passing over a part of a line gives: the place behind it, or the place where it is refused.
pub type Skip = Result<usize, usize>;

impl Reading {
    // The byte here, and the place behind it.
    // Stays (point 4): readers go on from the place behind, and `doc.get(at)` with a sum beside it at each of them would be no plainer.
    #[tactic(auto, using(crate::proofs::Taking::taking))]
    pub fn byte(self, doc: &[u8]) -> Took
        ensures { ByteRead doc.now self.at result }
    {
        let at = self.at;
        if at < doc.len() {
            Some((doc[at], Reading { at: at + 1 }))
        } else {
            None
        }
    }

    // The byte b, taken: the place behind it, or the place where another stands.
    #[tactic(auto, using(crate::proofs::Taking::taking))]
    pub fn take(self, doc: &[u8], b: u8) -> Skip
        ensures { Skips doc.now self.at (byte_r (is (only b)) self.at (drop self.at doc.now)) result }
    {
        match self.byte(doc) {
            Some((got, n)) if got == b => Ok(n.at),
            _ => Err(self.at),
        }
    }

    // The scalar value of the character here, and the place behind it.
    #[tactic(auto, using(crate::proofs::Chars::reading))]
    pub fn scalar(self, doc: &[u8]) -> Read
        ensures { ReadAt doc.now self.at result }
    {
        let at = self.at;
        if doc.len() <= at {
            return Err(at);
        }
        let b = doc[at];
        if b < 128 {
            return Ok((b as u32, Reading { at: at + 1 }));
        }
        let e = match whole(doc, at) {
            Some(e) => e,
            None => walk_end(doc, at)?,
        };
        Ok((value(doc, at, e), Reading { at: e }))
    }
}
