// Keywords and numbers. What a number is, is found before anything is written.
// Stays (points 5, 6), here and in each file: document, rooms and cursor go together as parameters, and `Ready` and `Passed` are asked of them. A struct that holds the `&mut` slices would need a clause in every contract that it still holds the same ones.
#![tactic(auto)]

ghost use Rattle.std.specs.Prelude.{◌≡◌, [], false, ℕ, ◌+◌, ◌≤◌, ◌<◌, length, drop};
ghost use Rattle.language.specs.Kind.{TRUE, FLOAT};
ghost use Rattle.rooms.specs.Told.{spot};
ghost use Rattle.rooms.specs.Contract.{Ready, Answers, Reaches, Small};
ghost use Rattle.numbers.specs.Places.{far_at};
ghost use Rattle.numbers.specs.Plain.{plain_r};
ghost use Rattle.numbers.specs.Keyword.{keyword_r};
ghost use Rattle.numbers.specs.Contract.{Passed, Leads, NumberAt, Longer, Put};

use characters::Reading;
use language::Kind;
use rooms::{Ans, Cursor, Far, anew_far, copy, put_row, row_of, same};

mod digits;
mod scanning;
mod writing;

use scanning::{Numeral, scan};
use writing::number_text;

// How far something longer than a number stays viable, whose last digits end at `last`: behind a space, where spaces may stand between digits.
#[tactic(auto, using(crate::proofs::NumberLaws::far_laws))]
fn beyond(doc: &[u8], last: usize, spaced: bool) -> usize
    ensures { result ≡ far_at spaced doc.now last }
{
    if spaced {
        return match (Reading { at: last }).take(doc, b' ') {
            Ok(n) => n,
            Err(p) => p,
        };
    }
    0
}

// The row of what stands from the cursor up to e, whose text has no escapes and goes up to `to`; the cursor behind it.
#[tactic(auto, using(crate::proofs::PutLaws::put_laws))]
fn put_leaf(rows: &mut [u32], c: Cursor, parent: u32, kind: Kind, e: usize, to: usize) -> Cursor
    requires small { Small c.at e (spot c.text) to (c.row + 1) }
    requires longer { Longer c to }
    ensures { Put rows.old rows.new c parent kind.0 e to result }
{
    let row = c.row;
    let next = row + 1;
    let from = c.spot();
    put_row(rows, row, row_of(kind, c.at, e, from, to, parent, next));
    Cursor {
        at: e,
        row: next,
        text: c.text + (to - from),
    }
}

// The number s, which was found at the cursor, is written. Its digits begin at d, behind a sign if `neg` holds.
#[tactic(auto, using(crate::proofs::NumberLaws::write_laws))]
fn write(
    doc: &[u8],
    rows: &mut [u32],
    text: &mut [u8],
    c: Cursor,
    parent: u32,
    s: Numeral,
    d: usize,
    neg: bool,
    spaced: bool,
) -> Far
    requires ready { Ready doc.now c }
    requires number_at { NumberAt doc.now c.at d neg spaced s }
    ensures { Reaches doc.now c parent (plain_r spaced c.at (drop c.at doc.now)) result rows.old rows.new text.old text.new }
{
    let far = beyond(doc, s.last, spaced);
    let to = number_text(doc, text, s, c.at, d, neg, c.spot());
    let n = put_leaf(rows, c, parent, s.kind, s.end, to);
    Ok((n, far))
}

// A number at the cursor, whose digits begin at d, behind a sign if `neg` holds.
#[tactic(auto, using(crate::proofs::NumberLaws::number_laws))]
fn number(
    doc: &[u8],
    rows: &mut [u32],
    text: &mut [u8],
    c: Cursor,
    parent: u32,
    d: Reading,
    neg: bool,
    spaced: bool,
) -> Far
    requires ready { Ready doc.now c }
    requires leads { Leads doc.now c.at d.at neg }
    ensures { Reaches doc.now c parent (plain_r spaced c.at (drop c.at doc.now)) result rows.old rows.new text.old text.new }
{
    let s = scan(doc, d, spaced)?;
    write(doc, rows, text, c, parent, s, d.at, neg, spaced)
}

// A keyword at the cursor, of a kind that has no text.
#[tactic(auto, using(crate::proofs::KeywordLaws::keyword_laws))]
fn keyword(
    doc: &[u8],
    rows: &mut [u32],
    text: &mut [u8],
    c: Cursor,
    parent: u32,
    kind: Kind,
    word: &[u8],
) -> Far
    requires ready { Ready doc.now c }
    requires kind_bound { (kind.0 ≤ TRUE) × (0 < length word.now) }
    ensures { Reaches doc.now c parent (keyword_r kind.0 word.now [] c.at (drop c.at doc.now)) result rows.old rows.new text.old text.new }
{
    let n = same(doc, c.at, word);
    let e = c.at + n;
    if n == word.len() {
        let next = c.row + 1;
        put_row(rows, c.row, row_of(kind, c.at, e, 0, 0, parent, next));
        let behind = Cursor {
            at: e,
            row: next,
            text: c.text,
        };
        return Ok((behind, 0));
    }
    Err(e)
}

// A keyword at the cursor that is a float: its text is the word.
#[tactic(auto, using(crate::proofs::KeywordLaws::word_laws))]
fn float_word(
    doc: &[u8],
    rows: &mut [u32],
    text: &mut [u8],
    c: Cursor,
    parent: u32,
    word: &[u8],
) -> Far
    requires ready { Ready doc.now c }
    requires word_nonzero { 0 < length word.now }
    ensures { Reaches doc.now c parent (keyword_r FLOAT word.now word.now c.at (drop c.at doc.now)) result rows.old rows.new text.old text.new }
{
    let at = c.at;
    let x = c.spot();
    let n = same(doc, at, word);
    let e = at + n;
    if n == word.len() {
        copy(doc, at, e, text, x);
        return Ok((put_leaf(rows, c, parent, Kind::FLOAT, e, x + n), 0));
    }
    Err(e)
}

// What begins with `n`, which was taken: `nan` or `null`.
#[tactic(auto, using(crate::proofs::NumberLaws::pair_laws))]
fn nan_or_null(
    doc: &[u8],
    rows: &mut [u32],
    text: &mut [u8],
    c: Cursor,
    parent: u32,
    n: Reading,
    spaced: bool,
) -> Far
    requires ready { Ready doc.now c }
    requires passed { Passed doc.now c.at 110 n.at }
    ensures { Reaches doc.now c parent (plain_r spaced c.at (drop c.at doc.now)) result rows.old rows.new text.old text.new }
{
    match n.take(doc, b'a') {
        Ok(_) => float_word(doc, rows, text, c, parent, b"nan"),
        Err(_) => keyword(doc, rows, text, c, parent, Kind::NULL, b"null"),
    }
}

// What begins with `-`, which was taken: `-infinity` or a number.
#[tactic(auto, using(crate::proofs::NumberLaws::pair_laws))]
fn signed(
    doc: &[u8],
    rows: &mut [u32],
    text: &mut [u8],
    c: Cursor,
    parent: u32,
    n: Reading,
    spaced: bool,
) -> Far
    requires ready { Ready doc.now c }
    requires passed { Passed doc.now c.at 45 n.at }
    ensures { Reaches doc.now c parent (plain_r spaced c.at (drop c.at doc.now)) result rows.old rows.new text.old text.new }
{
    match n.take(doc, b'i') {
        Ok(_) => anew_far(float_word(doc, rows, text, c, parent, b"-infinity")),
        Err(_) => anew_far(number(doc, rows, text, c, parent, n, true, spaced)),
    }
}

// A keyword that begins with no `-`, or none. Its first byte was taken.
#[tactic(auto, using(crate::proofs::NumberLaws::word_laws))]
fn word(
    doc: &[u8],
    rows: &mut [u32],
    text: &mut [u8],
    c: Cursor,
    parent: u32,
    b: u8,
    n: Reading,
    spaced: bool,
) -> Far
    requires ready { Ready doc.now c }
    requires le_b { 102 ≤ b }
    requires passed { Passed doc.now c.at b n.at }
    ensures { Reaches doc.now c parent (plain_r spaced c.at (drop c.at doc.now)) result rows.old rows.new text.old text.new }
{
    let at = c.at;
    match b {
        b'n' => anew_far(nan_or_null(doc, rows, text, c, parent, n, spaced)),
        b't' => anew_far(keyword(doc, rows, text, c, parent, Kind::TRUE, b"true")),
        b'f' => anew_far(keyword(doc, rows, text, c, parent, Kind::FALSE, b"false")),
        b'i' => anew_far(float_word(doc, rows, text, c, parent, b"infinity")),
        _ => anew_far(number(doc, rows, text, c, parent, Reading { at }, false, spaced)),
    }
}

// A keyword, which begins with `-` or with f to t, or a number at the cursor, with single spaces between digits where `spaced` holds.
#[tactic(auto, using(crate::proofs::NumberLaws::plain_laws))]
pub fn plain(
    doc: &[u8],
    rows: &mut [u32],
    text: &mut [u8],
    c: Cursor,
    parent: u32,
    spaced: bool,
) -> Far
    requires { Ready doc.now c }
    ensures { Reaches doc.now c parent (plain_r spaced c.at (drop c.at doc.now)) result rows.old rows.new text.old text.new }
{
    let r = Reading { at: c.at };
    match r.byte(doc) {
        None => Err(c.at),
        Some((b, n)) => match b {
            b'-' => anew_far(signed(doc, rows, text, c, parent, n, spaced)),
            b'f'..=b't' => anew_far(word(doc, rows, text, c, parent, b, n, spaced)),
            _ => anew_far(number(doc, rows, text, c.anew(), parent, r, false, spaced)),
        },
    }
}

// The same inside `[` and `{`, where no space stands between digits.
#[tactic(auto, using(crate::proofs::NumberLaws::inside_laws))]
pub fn plain_inside(doc: &[u8], rows: &mut [u32], text: &mut [u8], c: Cursor, parent: u32) -> Ans
    requires { Ready doc.now c }
    ensures { Answers doc.now c parent (plain_r false c.at (drop c.at doc.now)) result rows.old rows.new text.old text.new }
{
    let (n, _) = plain(doc, rows, text, c, parent, false)?;
    Ok(n)
}
