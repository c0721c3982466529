// Looks at what stands at a place, before anything is written.
ghost use Rattle.std.specs.Prelude.{◌≡◌, ◌≤◌, length, drop};
ghost use Rattle.exact.specs.Class.{is};
ghost use Rattle.rooms.specs.Contract.{Ready};
ghost use Rattle.characters.specs.Reads.{Skips};
ghost use Rattle.strings.specs.Keys.{key_s};
ghost use Rattle.judge.specs.Members.{firsts};
ghost use Rattle.blocks.specs.KeyLook.{dashed};
ghost use Rattle.judge.specs.Contract.{feed_r, ends_r, Gap, Looked, Follows};

use super::Start;
use characters::{Reading, Skip, is_key, optional_comment};
use rooms::{Ans, Cursor};
use strings::name;

// The cursor at another place.
pub fn moved(c: Cursor, at: usize) -> Cursor
    ensures { result ≡ record { at = at; row = c.row; text = c.text } }
{
    Cursor {
        at,
        row: c.row,
        text: c.text,
    }
}

// One space, taken where no second one stands behind it.
pub fn one_space(doc: &[u8], c: Cursor) -> Ans
    ensures { Gap doc.now c result }
{
    let n = c.take(doc, 32)?;
    if n.look(doc) == 32 { Err(c.at) } else { Ok(n) }
}

// LF at the root, elsewhere an optional line comment and LF.
pub fn line_end(doc: &[u8], at: usize, root: bool) -> Skip
    requires { at ≤ length doc.now }
    ensures { Skips doc.now at (ends_r root at (drop at doc.now)) result }
{
    if root {
        return feed(doc, at);
    }
    feed(doc, optional_comment(doc, at)?)
}

// LF.
pub fn feed(doc: &[u8], at: usize) -> Skip
    ensures { Skips doc.now at (feed_r at (drop at doc.now)) result }
{
    Reading { at }.take(doc, 10)
}

// Whether a key begins with the byte.
#[tactic(auto, using(crate::proofs::Looking::following))]
fn begins_key(b: u32) -> bool
    ensures { result ≡ is key_s.first b }
{
    b == 34 || b == 39 || is_key(b)
}

// Whether a member of a block begins with the byte.
#[tactic(auto, using(crate::proofs::Looking::following))]
fn begins(b: u32, object: bool) -> bool
    ensures { result ≡ is (firsts object) b }
{
    if object { begins_key(b) } else { b == 45 }
}

// The line at the cursor, behind a member of a block at col: a further member there, or none, and how far the line begins one.
#[tactic(auto, using(crate::proofs::Looking::following))]
pub fn further(doc: &[u8], c: Cursor, col: usize, object: bool) -> Ans
    requires { c.at ≤ length doc.now }
    ensures { Follows object doc.now c col result }
{
    let i = c.indent(doc, col);
    let n = moved(c, c.at + i);
    if col <= i && begins(n.look(doc), object) {
        Ok(n)
    } else {
        Err(n.at)
    }
}

// How a block begins at the cursor: a key's name is read into a room of no use. Of most other values the first byte tells that no key begins there.
#[tactic(auto, using(crate::proofs::Looking::looking))]
pub fn starts(doc: &[u8], c: Cursor) -> Start
    requires { Ready doc.now c }
    ensures { Looked doc.now c.at result }
{
    if dash(doc, c) {
        return Start::Dash;
    }
    if !begins_key(c.look(doc)) {
        return Start::Line(c.at);
    }
    let mut text = [0u8; 1];
    match name(doc, &mut text, c) {
        Ok(n) if n.look(doc) == 58 => Start::Key,
        Ok(n) => Start::Line(n.at),
        Err(p) => Start::Line(p),
    }
}

// Whether a dash and a space stand at the cursor.
fn dash(doc: &[u8], c: Cursor) -> bool
    ensures { result ≡ dashed (drop c.at doc.now) }
{
    match c.take(doc, 45) {
        Ok(n) => n.look(doc) == 32,
        Err(_) => false,
    }
}
