// Inline values: scalars, and containers in brackets. Elements and pairs are read in a loop; a container inside another takes one of the allowance.
// Stays (point 5): the document, the rooms and the cursor go as parameters. A struct that holds the `&mut` slices would need a clause in every contract that it still holds the same ones; the cursor goes by value, as document 01 has it.
#![tactic(auto)]

ghost use Rattle.std.specs.Prelude.{◌≡◌, true, false, drop};
ghost use Rattle.rooms.specs.Contract.{Ready, Answers, Reaches};
ghost use Rattle.exact.specs.Class.{is};
ghost use Rattle.inline.specs.Values.{marks, scalar_r, value_r};
ghost use Rattle.inline.specs.Lists.{inline_pair_r};
ghost use Rattle.inline.specs.Brackets.{members, label_r, bracket_r};
ghost use Rattle.notes.specs.Notes.{Notes, one};
ghost use Rattle.inline.specs.Contract.{Enclosed, Closed, Opened, Passed, Parted, Turned};

use language::Kind;
use notes::note;
use numbers::{plain, plain_inside};
use rooms::{Ans, Cursor, Far, anew, anew_far, put_row, row_of};
use strings::{inline_bytes, key, string};

// What follows an element or a pair: another, or the end of the list.
// Stays (point 1): both answers carry the cursor behind them and neither is a refusal, so an Option or a Result would name one of them for what it is not.
#[derive(Clone, Copy)]
pub enum Sep {
    More(Cursor),
    Last(Cursor),
}

// That, or the place where neither follows.
pub type After = Result<Sep, usize>;

// A scalar inside brackets, by its first byte.
#[tactic(auto, using(crate::proofs::Choices::choices))]
fn scalar(doc: &[u8], rows: &mut [u32], text: &mut [u8], c: Cursor, parent: u32) -> Ans
    requires { Ready doc.now c }
    ensures { Answers doc.now c parent (scalar_r false c.at (drop c.at doc.now)) result rows.old rows.new text.old text.new }
{
    match c.look(doc) {
        34 | 39 => string(doc, rows, text, c, parent),
        60 => inline_bytes(doc, rows, text, c, parent),
        _ => plain_inside(doc, rows, text, c, parent),
    }
}

// Two bytes, one behind the other.
#[tactic(auto, using(crate::proofs::Passing::passing))]
pub fn pass(doc: &[u8], c: Cursor, first: u8, second: u8) -> Ans
    ensures { Passed doc.now c first second result }
{
    let n = c.take(doc, first)?;
    n.take(doc, second)
}

// A pair's key, and the colon and the space behind it.
#[tactic(auto, using(crate::proofs::Passing::passing))]
fn label(doc: &[u8], rows: &mut [u32], text: &mut [u8], c: Cursor, parent: u32) -> Ans
    requires { Ready doc.now c }
    ensures { Answers doc.now c parent (label_r c.at (drop c.at doc.now)) result rows.old rows.new text.old text.new }
{
    let n = key(doc, rows, text, c, parent)?;
    pass(doc, n, b':', b' ')
}

// What follows an element or a pair that ends at the cursor.
#[tactic(auto, using(crate::proofs::Passing::passing))]
fn after(doc: &[u8], n: Cursor, close: u8) -> After
    ensures { Parted doc.now close n result }
{
    if let Ok(m) = n.take(doc, close) {
        return Ok(Sep::Last(m));
    }
    let m = pass(doc, n, b',', b' ')?;
    Ok(Sep::More(m))
}

// Behind the bracket of a container, where its first child's row comes next; or the place where no such bracket stands.
#[tactic(auto, using(crate::proofs::Passing::passing))]
fn open(doc: &[u8], c: Cursor, bracket: u8) -> Ans
    requires { Ready doc.now c }
    ensures { Opened doc.now c bracket result }
{
    let n = c.take(doc, bracket)?;
    Ok(Cursor {
        at: n.at,
        row: c.row + 1,
        text: c.text,
    })
}

// The row of a container of that kind, which stands from c up to n; n is the answer.
#[tactic(auto, using(crate::proofs::Containers::containing))]
fn enclose(rows: &mut [u32], c: Cursor, n: Cursor, parent: u32, count: usize, kind: Kind) -> Ans
    requires { Enclosed c n count }
    ensures { Closed c n parent count kind.0 result rows.old rows.new }
{
    let w = row_of(kind, c.at, n.at, 0, count, parent, n.row);
    put_row(rows, c.row, w);
    Ok(n)
}

// The cycle. A value inside brackets, with an allowance of containers one inside another.
#[cycle(array_element_object_pair_value)]
pub fn value(
    doc: &[u8],
    rows: &mut [u32],
    text: &mut [u8],
    keys: &mut [u32],
    c: Cursor,
    parent: u32,
    allow: usize,
) -> Ans
    requires { Ready doc.now c }
    ensures answers { Answers doc.now c parent (value_r false allow c.at (drop c.at doc.now)) result rows.old rows.new text.old text.new }
    ensures notes { Notes one doc.now c.at c.row parent (value_r false allow c.at (drop c.at doc.now)) keys.old keys.new }
{
    let here = c.anew();
    if allow == 0 {
        return anew(scalar(doc, rows, text, here, parent));
    }
    match here.look(doc) {
        91 => anew(array(doc, rows, text, keys, here, parent, allow - 1)),
        123 => anew(object(doc, rows, text, keys, here, parent, allow - 1)),
        48..=57 => anew(plain_inside(doc, rows, text, here, parent)),
        _ => anew(scalar(doc, rows, text, here, parent)),
    }
}

// An array: its elements are values with one container less allowed.
// Stays (point 2): document 01 asks for value, array and object readers by these names that call each other in a cycle; `open`, `enclose` and `after` are what `array` and `object` share.
#[cycle(array_element_object_pair_value)]
fn array(
    doc: &[u8],
    rows: &mut [u32],
    text: &mut [u8],
    keys: &mut [u32],
    c: Cursor,
    parent: u32,
    allow: usize,
) -> Ans
    requires { Ready doc.now c }
    ensures answers { Answers doc.now c parent (bracket_r false (value_r false allow) c.at (drop c.at doc.now)) result rows.old rows.new text.old text.new }
    ensures notes { Notes one doc.now c.at c.row parent (bracket_r false (value_r false allow) c.at (drop c.at doc.now)) keys.old keys.new }
{
    let row = c.row;
    let mut count: usize = 0;
    let Ok(first) = open(doc, c, b'[') else {
        return Err(c.at);
    };
    if let Ok(n) = first.take(doc, b']') {
        return enclose(rows, c, n, parent, count, Kind::ARRAY);
    }
    let mut cur = first;
    loop {
        let next = element(doc, rows, text, keys, cur, row as u32, allow, b']')?;
        match next {
            Sep::Last(n) => return enclose(rows, c, n, parent, count + 1, Kind::ARRAY),
            Sep::More(n) => cur = n,
        }
        count += 1;
    }
}

// An object: each pair is a key with its colon, and a value with one container less allowed.
#[cycle(array_element_object_pair_value)]
fn object(
    doc: &[u8],
    rows: &mut [u32],
    text: &mut [u8],
    keys: &mut [u32],
    c: Cursor,
    parent: u32,
    allow: usize,
) -> Ans
    requires { Ready doc.now c }
    ensures answers { Answers doc.now c parent (bracket_r true (value_r false allow) c.at (drop c.at doc.now)) result rows.old rows.new text.old text.new }
    ensures notes { Notes one doc.now c.at c.row parent (bracket_r true (value_r false allow) c.at (drop c.at doc.now)) keys.old keys.new }
{
    let row = c.row;
    let mut count: usize = 0;
    let Ok(first) = open(doc, c, b'{') else {
        return Err(c.at);
    };
    if let Ok(n) = first.take(doc, b'}') {
        return enclose(rows, c, n, parent, count, Kind::OBJECT);
    }
    let mut cur = first;
    loop {
        let next = pair(doc, rows, text, keys, cur, row as u32, allow)?;
        match next {
            Sep::Last(n) => return enclose(rows, c, n, parent, count + 1, Kind::OBJECT),
            Sep::More(n) => cur = n,
        }
        count += 1;
    }
}

// A value, and what follows it before the byte that closes its container.
#[cycle(array_element_object_pair_value)]
fn element(
    doc: &[u8],
    rows: &mut [u32],
    text: &mut [u8],
    keys: &mut [u32],
    c: Cursor,
    parent: u32,
    allow: usize,
    close: u8,
) -> After
    requires { Ready doc.now c }
    ensures turned { Turned false close doc.now c parent (value_r false allow) result rows.old rows.new text.old text.new }
    ensures notes { Notes (members false) doc.now c.at c.row parent (value_r false allow c.at (drop c.at doc.now)) keys.old keys.new }
{
    let n = value(doc, rows, text, keys, c, parent, allow)?;
    after(doc, n, close)
}

// A key with its colon, its value, and what follows them.
#[cycle(array_element_object_pair_value)]
fn pair(
    doc: &[u8],
    rows: &mut [u32],
    text: &mut [u8],
    keys: &mut [u32],
    c: Cursor,
    parent: u32,
    allow: usize,
) -> After
    requires { Ready doc.now c }
    ensures turned { Turned true 125 doc.now c parent (inline_pair_r (value_r false allow)) result rows.old rows.new text.old text.new }
    ensures notes { Notes (members true) doc.now c.at c.row parent (inline_pair_r (value_r false allow) c.at (drop c.at doc.now)) keys.old keys.new }
{
    let n = label(doc, rows, text, c, parent)?;
    note(doc, keys, parent, c.at, allow);
    element(doc, rows, text, keys, n, parent, allow, b'}')
}

// Whether a value that begins with the byte is no keyword and no number.
fn marked(b: u32) -> bool
    ensures { result ≡ is marks b }
{
    matches!(b, 34 | 39 | 60 | 91 | 123)
}

// A value on a line, where digits may have single spaces between.
fn value_here(
    doc: &[u8],
    rows: &mut [u32],
    text: &mut [u8],
    keys: &mut [u32],
    c: Cursor,
    parent: u32,
    allow: usize,
) -> Far
    requires { Ready doc.now c }
    ensures reaches { Reaches doc.now c parent (value_r true allow c.at (drop c.at doc.now)) result rows.old rows.new text.old text.new }
    ensures notes { Notes one doc.now c.at c.row parent (value_r true allow c.at (drop c.at doc.now)) keys.old keys.new }
{
    let b = c.look(doc);
    if marked(b) {
        let n = value(doc, rows, text, keys, c, parent, allow)?;
        return Ok((n, 0));
    }
    anew_far(plain(doc, rows, text, c, parent, true))
}

// The same, with the cursor made anew.
pub fn line_value(
    doc: &[u8],
    rows: &mut [u32],
    text: &mut [u8],
    keys: &mut [u32],
    c: Cursor,
    parent: u32,
    allow: usize,
) -> Far
    requires { Ready doc.now c }
    ensures reaches { Reaches doc.now c parent (value_r true allow c.at (drop c.at doc.now)) result rows.old rows.new text.old text.new }
    ensures notes { Notes one doc.now c.at c.row parent (value_r true allow c.at (drop c.at doc.now)) keys.old keys.new }
{
    value_here(doc, rows, text, keys, c.anew(), parent, allow)
}
