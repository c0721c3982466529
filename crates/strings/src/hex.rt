// Hex pairs: those of inline bytes, and those of a hex line, behind which a line comment may begin.
ghost use Rattle.std.specs.Prelude.{◌≡◌, true, drop};
ghost use Rattle.exact.specs.Class.{is};
ghost use Rattle.exact.specs.Place.{peek};
ghost use Rattle.language.specs.Strings.{lowhex};
ghost use Rattle.rooms.specs.Contract.{Ready, Answers};
ghost use Rattle.strings.specs.Contract.{Texts};
ghost use Rattle.strings.specs.Bytes.{angled_r, inline_bytes_r};
ghost use Rattle.strings.specs.Hexes.{pair_text_r, Furthers, PairsAt, Closed};

use super::digits::{is_low, low, low_here};
use super::quotes::put_leaf;
use characters::Reading;
use language::Kind;
use rooms::{Ans, Cursor, Far, put_byte};

// A pair at the cursor, where a digit stands, stored.
#[tactic(auto, using(crate::proofs::HexLaws::pairing))]
fn pair(doc: &[u8], text: &mut [u8], c: Cursor) -> Ans
    requires ready { Ready doc.now c }
    requires at_value { is lowhex (peek doc.now c.at) ≡ true }
    ensures { Texts doc.now c (pair_text_r c.at (drop c.at doc.now)) result text.old text.new }
{
    let h = low_here(doc, Reading { at: c.at });
    let m = Reading { at: c.at + 1 };
    let Some((l, n)) = low(doc, m) else {
        return Err(m.at);
    };
    put_byte(text, c.spot(), (16 * h + l) as u8);
    Ok(Cursor {
        at: n.at,
        row: c.row,
        text: c.text + 1,
    })
}

// Where a further pair begins behind one that ends at the cursor: here, behind a space, or nowhere, and then how far one would begin.
#[tactic(auto, using(crate::proofs::HexLaws::furthering))]
fn further(doc: &[u8], c: Cursor) -> Ans
    ensures { Furthers doc.now c result }
{
    match c.take(doc, b' ') {
        Ok(n) if is_low(n.look(doc)) => Ok(n),
        Ok(n) => Err(n.at),
        Err(_) if is_low(c.look(doc)) => Ok(c),
        Err(p) => Err(p),
    }
}

// The pairs at the cursor, where a digit stands, with at most one space between.
#[tactic(auto, using(crate::proofs::PairsLaws::pairing_on))]
fn some_pairs(doc: &[u8], text: &mut [u8], c: Cursor) -> Far
    requires ready { Ready doc.now c }
    requires at_value { is lowhex (peek doc.now c.at) ≡ true }
    ensures { PairsAt doc.now c result text.old text.new }
{
    let mut n = c;
    loop {
        let m = pair(doc, text, n)?;
        match further(doc, m) {
            Ok(p) => n = p,
            Err(far) => return Ok((m, far)),
        }
    }
}

// The pairs at the cursor.
#[tactic(auto, using(crate::proofs::PairsLaws::pairing_all))]
pub fn pairs(doc: &[u8], text: &mut [u8], c: Cursor) -> Far
    requires { Ready doc.now c }
    ensures { PairsAt doc.now c result text.old text.new }
{
    if is_low(c.look(doc)) {
        return some_pairs(doc, text, c);
    }
    Err(c.at)
}

// `>` at the cursor; where it is refused otherwise.
#[tactic(auto, using(crate::proofs::AngledLaws::closing))]
fn close(doc: &[u8], n: Cursor, far: usize) -> Ans
    ensures { Closed doc.now n far result }
{
    match n.take(doc, b'>') {
        Ok(m) => Ok(m),
        Err(_) => Err(far),
    }
}

// Bytes in `<..>`, from the cursor on.
#[tactic(auto, using(crate::proofs::AngledLaws::angles))]
fn angled(doc: &[u8], text: &mut [u8], c: Cursor) -> Ans
    requires { Ready doc.now c }
    ensures { Texts doc.now c (angled_r c.at (drop c.at doc.now)) result text.old text.new }
{
    let n = c.take(doc, b'<')?;
    if is_low(n.look(doc)) {
        let (m, far) = pairs(doc, text, n)?;
        close(doc, m, far)
    } else {
        close(doc, n, n.at)
    }
}

// Inline bytes.
// Stays (point 2), as `key` and `string` do: each reads by another function, and one of all three would take it as a closure, longer than these two lines.
#[tactic(auto, using(crate::proofs::AngledLaws::bytes))]
pub fn inline_bytes(doc: &[u8], rows: &mut [u32], text: &mut [u8], c: Cursor, parent: u32) -> Ans
    requires { Ready doc.now c }
    ensures { Answers doc.now c parent (inline_bytes_r c.at (drop c.at doc.now)) result rows.old rows.new text.old text.new }
{
    let n = angled(doc, text, c)?;
    Ok(put_leaf(rows, c, n, parent, Kind::BYTES))
}
