// The escapes of quoted strings: what may stand behind a backslash, and the bytes that it stands for.
ghost use Rattle.std.specs.Prelude.{◌≡◌, ◌+◌, ◌%◌, ◌≤◌, ◌<◌, length, drop, set};
ghost use Rattle.language.specs.Strings.{scalar};
ghost use Rattle.rooms.specs.Contract.{ample, Ready};
ghost use Rattle.strings.specs.Contract.{Letter, Digits, Halts, CodeAt, Stored, Texts};
ghost use Rattle.strings.specs.Quoted.{braced_r, coded_r, behind_r, escape_r, kept_r, single_escape_r};

use super::clean::character;
use super::digits::hex;
use characters::{Read, Reading};
use rooms::{Ans, Cursor, ESCAPE, copy, put_byte};

// Neither a surrogate nor past the last scalar value.
#[tactic(auto, using(crate::proofs::DigitLaws::scalars))]
fn is_scalar(v: u32) -> bool
    ensures { result ≡ scalar v }
{
    matches!(v, 0..=0xD7FF | 0xE000..=0x10FFFF)
}

// Digits of `\u{..}` from `at` to e make v, and no further one is read: they name a scalar value or are refused behind the last.
#[tactic(auto, using(crate::proofs::CodeLaws::codes))]
fn ended(doc: &[u8], at: Reading, v: u32, e: Reading) -> Read
    requires { Digits doc.now at.at e.at v × Halts doc.now at.at e.at v }
    ensures { CodeAt doc.now at.at result }
{
    if e.at != at.at && is_scalar(v) {
        Ok((v, e))
    } else {
        Err(e.at)
    }
}

// Five digits that end at e make v. A sixth is read only where a scalar value results.
#[tactic(auto, using(crate::proofs::CodeLaws::codes))]
fn sixth(doc: &[u8], at: Reading, v: u32, e: Reading) -> Read
    requires { Digits doc.now at.at e.at v × (e.at ≡ at.at + 5) }
    ensures { CodeAt doc.now at.at result }
{
    if let Some((d, m)) = hex(doc, e) {
        let w = 16 * v + d;
        if is_scalar(w) {
            return Ok((w, m));
        }
    }
    ended(doc, at, v, e)
}

// The digits of `\u{..}` that stand at `at`: the scalar value that they name and the place behind them, or the place where they are refused.
#[tactic(auto, using(crate::proofs::CodeLaws::codes))]
fn code(doc: &[u8], at: Reading) -> Read
    requires { (length doc.now < ample) × (at.at ≤ length doc.now) }
    ensures { CodeAt doc.now at.at result }
{
    let mut v: u32 = 0;
    let mut e = at;
    while e.at != at.at + 5 {
        match hex(doc, e) {
            None => return ended(doc, at, v, e),
            Some((d, m)) => {
                v = 16 * v + d;
                e = m;
            }
        }
    }
    sixth(doc, at, v, e)
}

// A tail byte in UTF-8, of the last six bits of v.
fn put_tail(text: &mut [u8], x: usize, v: u32)
    ensures { text.new ≡ set text.old x (128 + v % 64) }
{
    put_byte(text, x, (128 + v % 64) as u8);
}

// The four bytes of a scalar value past 65535 in UTF-8.
#[tactic(auto, using(crate::proofs::TextLaws::stores))]
fn put_four(text: &mut [u8], x: usize, v: u32) -> usize
    requires { (x < ample) × (65535 < v) × (v < 0x110000) }
    ensures { Stored text.old text.new x v result }
{
    put_byte(text, x, (240 + v / 262144) as u8);
    put_tail(text, x + 1, v / 4096);
    put_tail(text, x + 2, v / 64);
    put_tail(text, x + 3, v);
    x + 4
}

// The bytes of a scalar value in UTF-8, stored from x on; the place behind them.
#[tactic(auto, using(crate::proofs::TextLaws::stores))]
fn put_scalar(text: &mut [u8], x: usize, v: u32) -> usize
    requires { (x < ample) × (v < 0x110000) }
    ensures { Stored text.old text.new x v result }
{
    if v <= 127 {
        put_byte(text, x, v as u8);
        return x + 1;
    }
    if v <= 2047 {
        put_byte(text, x, (192 + v / 64) as u8);
        put_tail(text, x + 1, v);
        return x + 2;
    }
    if v <= 65535 {
        put_byte(text, x, (224 + v / 4096) as u8);
        put_tail(text, x + 1, v / 64);
        put_tail(text, x + 2, v);
        return x + 3;
    }
    if text.len() <= x {
        return x + 4;
    }
    put_four(text, x, v)
}

// What a letter behind a backslash stands for in double quotes, if it stands for something.
#[tactic(auto, using(crate::proofs::DigitLaws::letters))]
pub fn stands_for(b: u32) -> Option<u8>
    ensures { Letter b result }
{
    match b {
        34 => Some(34),
        47 => Some(47),
        92 => Some(92),
        98 => Some(8),
        102 => Some(12),
        110 => Some(10),
        114 => Some(13),
        116 => Some(9),
        _ => None,
    }
}

// The digits of `\u{..}` and the brace behind them.
#[tactic(auto, using(crate::proofs::EscapeLaws::bracing))]
fn braced(doc: &[u8], text: &mut [u8], c: Cursor) -> Ans
    requires { Ready doc.now c }
    ensures { Texts doc.now c (braced_r c.at (drop c.at doc.now)) result text.old text.new }
{
    let (v, e) = code(doc, Reading { at: c.at })?;
    let at = e.take(doc, b'}')?;
    let from = c.spot();
    let to = put_scalar(text, from, v);
    Ok(Cursor {
        at,
        row: c.row,
        text: c.text + ESCAPE + (to - from),
    })
}

// `u{..}` behind a backslash.
#[tactic(auto, using(crate::proofs::EscapeLaws::bracings))]
pub fn scalar_escape(doc: &[u8], text: &mut [u8], c: Cursor) -> Ans
    requires { Ready doc.now c }
    ensures { Texts doc.now c (coded_r c.at (drop c.at doc.now)) result text.old text.new }
{
    let u = c.take(doc, b'u')?;
    let n = u.take(doc, b'{')?;
    braced(doc, text, n)
}

// What stands behind a backslash in double quotes: a letter that stands for a byte, or `u{..}`.
#[tactic(auto, using(crate::proofs::EscapeLaws::lettering_on))]
fn behind(doc: &[u8], text: &mut [u8], c: Cursor) -> Ans
    requires { Ready doc.now c }
    ensures { Texts doc.now c (behind_r c.at (drop c.at doc.now)) result text.old text.new }
{
    let Some((b, n)) = c.step(doc) else {
        return Err(c.at);
    };
    match stands_for(b as u32) {
        None => scalar_escape(doc, text, c),
        Some(v) => {
            put_byte(text, c.spot(), v);
            Ok(Cursor {
                at: n.at,
                row: c.row,
                text: c.text + ESCAPE + 1,
            })
        }
    }
}

// An escape in double quotes.
#[tactic(auto, using(crate::proofs::EscapeLaws::escapes))]
pub fn escape(doc: &[u8], text: &mut [u8], c: Cursor) -> Ans
    requires { Ready doc.now c }
    ensures { Texts doc.now c (escape_r c.at (drop c.at doc.now)) result text.old text.new }
{
    let n = c.take(doc, b'\\')?;
    behind(doc, text, n)
}

// A backslash that stays as itself in single quotes, and the character behind it: copied as they stand.
#[tactic(auto, using(crate::proofs::SingleLaws::keeping))]
fn kept(doc: &[u8], text: &mut [u8], c: Cursor) -> Ans
    requires { Ready doc.now c }
    ensures { Texts doc.now c (kept_r c.at (drop c.at doc.now)) result text.old text.new }
{
    let n = c.take(doc, b'\\')?;
    let (_, m) = character(doc, Reading { at: n.at }, b'\'')?;
    let at = c.at;
    let e = m.at;
    copy(doc, at, e, text, c.spot());
    Ok(Cursor {
        at: e,
        row: c.row,
        text: c.text + (e - at),
    })
}

// A backslash in single quotes: an escape of a single quote or a backslash, or one that stays as itself.
#[tactic(auto, using(crate::proofs::SingleLaws::singles))]
pub fn single_escape(doc: &[u8], text: &mut [u8], c: Cursor) -> Ans
    requires { Ready doc.now c }
    ensures { Texts doc.now c (single_escape_r c.at (drop c.at doc.now)) result text.old text.new }
{
    let n = c.take(doc, b'\\')?;
    match n.step(doc) {
        None => Err(n.at),
        Some((b @ (b'\'' | b'\\'), m)) => {
            put_byte(text, c.spot(), b);
            Ok(Cursor {
                at: m.at,
                row: c.row,
                text: c.text + ESCAPE + 1,
            })
        }
        Some(_) => kept(doc, text, c),
    }
}
