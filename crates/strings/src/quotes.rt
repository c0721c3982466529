// Quoted strings: plain bytes and characters of several bytes are passed over and copied in runs, escapes are decoded one at a time.
ghost use Rattle.std.specs.Prelude.{◌≡◌, drop};
ghost use Rattle.exact.specs.Place.{peek};
ghost use Rattle.characters.specs.Plains.{Quote};
ghost use Rattle.rooms.specs.Contract.{Ready, Answers};
ghost use Rattle.strings.specs.Contract.{Texts};
ghost use Rattle.strings.specs.Inside.{text_r, left_r, special_r, CleanTo, Copied, Special, Close, Leafed};
ghost use Rattle.strings.specs.Quoted.{quoted_r, string_r};

use super::clean::clean_end;
use super::escapes::{escape, single_escape};
use characters::Reading;
use language::Kind;
use rooms::{Ans, Cursor, copy, put_row, row_of};

// The plain bytes and the characters of several bytes at the cursor, copied. Escapes often stand one behind another: at a backslash there is nothing to copy.
#[tactic(auto, using(crate::proofs::CleanLaws::cleaning))]
fn clean(doc: &[u8], text: &mut [u8], c: Cursor, quote: u8) -> Cursor
    requires { Ready doc.now c × Quote quote }
    ensures { Copied (CleanTo quote) doc.now c result text.old text.new }
{
    if c.look(doc) == 92 {
        return c;
    }
    let at = c.at;
    let n = clean_end(doc, Reading { at }, quote);
    let e = n.at;
    copy(doc, at, e, text, c.spot());
    Cursor {
        at: e,
        row: c.row,
        text: c.text + (e - at),
    }
}

// A character of several bytes at the cursor, copied.
#[tactic(auto, using(crate::proofs::SpecialLaws::specials))]
fn wide(doc: &[u8], text: &mut [u8], c: Cursor, quote: u8) -> Ans
    requires ready { Ready doc.now c × Quote quote }
    requires special { Special quote doc.now c.at × (peek doc.now c.at ≡ 92 → ⊥) }
    ensures { Texts doc.now c (special_r quote c.at (drop c.at doc.now)) result text.old text.new }
{
    let at = c.at;
    let r = Reading { at };
    let (v, n) = r.scalar(doc)?;
    if v < 128 {
        return Err(at);
    }
    let e = n.at;
    copy(doc, at, e, text, c.spot());
    Ok(Cursor {
        at: e,
        row: c.row,
        text: c.text + (e - at),
    })
}

// What stands at the cursor where no plain byte and no quote does: an escape, a character of several bytes, or nothing of a string.
#[tactic(auto, using(crate::proofs::SpecialLaws::specials))]
fn special(doc: &[u8], text: &mut [u8], c: Cursor, quote: u8) -> Ans
    requires ready { Ready doc.now c × Quote quote }
    requires special { Special quote doc.now c.at }
    ensures { Texts doc.now c (special_r quote c.at (drop c.at doc.now)) result text.old text.new }
{
    if c.look(doc) != 92 {
        return wide(doc, text, c, quote);
    }
    if quote == 34 {
        return escape(doc, text, c);
    }
    single_escape(doc, text, c)
}

// What is left of a string behind its first quote.
#[tactic(auto, using(crate::proofs::StringLaws::strings))]
fn left(doc: &[u8], text: &mut [u8], c: Cursor, quote: u8) -> Ans
    requires { Ready doc.now c × Quote quote }
    ensures { Texts doc.now c (left_r quote c.at (drop c.at doc.now)) result text.old text.new }
{
    let mut n = c;
    loop {
        let e = clean(doc, text, n, quote);
        if let Ok(m) = e.take(doc, quote) {
            return Ok(m);
        }
        n = special(doc, text, e, quote)?;
    }
}

// A string between two of these quotes.
#[tactic(auto, using(crate::proofs::StringLaws::openings))]
fn between(doc: &[u8], text: &mut [u8], c: Cursor, quote: u8) -> Ans
    requires { Ready doc.now c × Quote quote }
    ensures { Texts doc.now c (text_r quote c.at (drop c.at doc.now)) result text.old text.new }
{
    let n = c.take(doc, quote)?;
    left(doc, text, n, quote)
}

// A string in either quotes.
#[tactic(auto, using(crate::proofs::LeafLaws::quotes))]
pub fn quoted(doc: &[u8], text: &mut [u8], c: Cursor) -> Ans
    requires { Ready doc.now c }
    ensures { Texts doc.now c (quoted_r c.at (drop c.at doc.now)) result text.old text.new }
{
    if c.look(doc) == 34 {
        between(doc, text, c, b'"')
    } else {
        between(doc, text, c, b'\'')
    }
}

// The row of a text that was read from the cursor c up to n.
#[tactic(auto, using(crate::proofs::LeafLaws::leaves))]
pub fn put_leaf(rows: &mut [u32], c: Cursor, n: Cursor, parent: u32, kind: Kind) -> Cursor
    requires { Close c n }
    ensures { Leafed c n parent kind.0 result rows.old rows.new }
{
    let row = c.row;
    put_row(
        rows,
        row,
        row_of(kind, c.at, n.at, c.spot(), n.spot(), parent, row + 1),
    );
    Cursor {
        at: n.at,
        row: row + 1,
        text: n.text,
    }
}

// A string value.
#[tactic(auto, using(crate::proofs::LeafLaws::values))]
pub fn string(doc: &[u8], rows: &mut [u32], text: &mut [u8], c: Cursor, parent: u32) -> Ans
    requires { Ready doc.now c }
    ensures { Answers doc.now c parent (string_r c.at (drop c.at doc.now)) result rows.old rows.new text.old text.new }
{
    let n = quoted(doc, text, c)?;
    Ok(put_leaf(rows, c, n, parent, Kind::STRING))
}
