// Keys, bare or quoted.
ghost use Rattle.std.specs.Prelude.{drop};
ghost use Rattle.language.specs.Strings.{keybyte};
ghost use Rattle.characters.specs.Plains.{RunTo};
ghost use Rattle.rooms.specs.Contract.{Ready, Answers};
ghost use Rattle.strings.specs.Contract.{Texts};
ghost use Rattle.strings.specs.Inside.{Copied};
ghost use Rattle.strings.specs.Keys.{name_r, key_r};

use super::quotes::{put_leaf, quoted};
use characters::{Reading, is_key};
use language::Kind;
use rooms::{Ans, Cursor, anew, copy};

// The bytes of a bare key at the cursor, copied.
#[tactic(auto, using(crate::proofs::TextLaws::copies))]
fn bare(doc: &[u8], text: &mut [u8], c: Cursor) -> Cursor
    requires { Ready doc.now c }
    ensures { Copied (RunTo keybyte) doc.now c result text.old text.new }
{
    let at = c.at;
    let r = Reading { at };
    let n = r.key_bytes(doc);
    let e = n.at;
    copy(doc, at, e, text, c.spot());
    Cursor {
        at: e,
        row: c.row,
        text: c.text + (e - at),
    }
}

// What a key says, without its row.
pub fn name(doc: &[u8], text: &mut [u8], c: Cursor) -> Ans
    requires { Ready doc.now c }
    ensures { Texts doc.now c (name_r c.at (drop c.at doc.now)) result text.old text.new }
{
    if is_key(c.look(doc)) {
        return Ok(bare(doc, text, c));
    }
    anew(quoted(doc, text, c))
}

// A key.
#[tactic(auto, using(crate::proofs::KeyLaws::keys))]
pub fn key(doc: &[u8], rows: &mut [u32], text: &mut [u8], c: Cursor, parent: u32) -> Ans
    requires { Ready doc.now c }
    ensures { Answers doc.now c parent (key_r c.at (drop c.at doc.now)) result rows.old rows.new text.old text.new }
{
    let n = name(doc, text, c.anew())?;
    Ok(put_leaf(rows, c, n, parent, Kind::KEY))
}
