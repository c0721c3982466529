// Reads a document into the rooms lent.
// Stays (point 5): the document, the rooms of our own and the rooms lent go as parameters. A struct that holds the `&mut` slices would need a clause in every contract that it still holds the same ones.
#![tactic(auto)]

ghost use Rattle.std.specs.Prelude.{◌≡◌, true, ◌%◌, ◌<◌, ◌≤◌, length};
ghost use Rattle.language.specs.Answered.{number, value, second, third, Answered, Totals, limit};
ghost use Rattle.reader.specs.Filling.{Texted, Read, Attempted};
ghost use Rattle.reader.specs.Rounds.{Swept, Repeated};
ghost use Rattle.reader.specs.Lent.{Passed, Noted};
ghost use Rattle.rooms.specs.Told.{spot, tally};

mod rounds;
mod windows;

use answers::answer;
use judge::{blame, check, pass};
use language::{Accepted, DEEPEST, LIMIT, Place, Refusal, Row, WIDTH};
use lined::line_up;
use notes::{FIRST, LEFT, log_word};
use places::{MOST, first_again};
use rooms::Cursor;
use rounds::first_repeat;
use sieve::{LARGE, MODE};

// Rooms of our own are cleared first, and stand on the stack: so they are small, and smaller for documents of few bytes. These have a row for two bytes, as `- - 1` needs; those for some bytes and for more
// have fewer, and a document with more rows, or with more bytes, is read into the rooms lent. Each has as many bytes of text, as many rows and a log of half as many keys.
const FEW: usize = 1024;

const FEW_ROWS: usize = FEW / 2;

const SOME: usize = 4096;

const SOME_ROWS: usize = 512;

const MORE: usize = 16384;

const MORE_ROWS: usize = 1700;

// The words of so many rows, and of the log beside them.
const FEW_WORDS: usize = WIDTH * FEW_ROWS;

const FEW_LOG: usize = FIRST + FEW_ROWS;

const SOME_WORDS: usize = WIDTH * SOME_ROWS;

const SOME_LOG: usize = FIRST + SOME_ROWS;

const MORE_WORDS: usize = WIDTH * MORE_ROWS;

const MORE_LOG: usize = FIRST + MORE_ROWS;

// The log takes all keys of documents of so many bytes.
const MANY: usize = 32768;

// What reading into rooms of our own gives: the answer, or none where they have too few rows.
pub type Tried = Option<Result<Accepted, Refusal>>;

// The answer by rooms of our own whose rows may be too few.
fn attempt(
    doc: &[u8],
    keys: &mut [u32],
    rows: &mut [u32],
    bytes: &mut [u8],
    table: &mut [u32],
    text: &mut [u8],
) -> Tried
    requires { Texted doc.now keys.old rows.old bytes.old }
    ensures { Attempted doc.now table.old text.old result table.new text.new }
{
    match pass(doc, rows, bytes, keys, DEEPEST) {
        Err(p) => Some(Err(blame(doc, rows, bytes, p))),
        Ok(c) => settled(doc, keys, rows, bytes, counted(c), table, text),
    }
}

// What is read up to the cursor.
fn counted(c: Cursor) -> Accepted
    ensures rows { result.rows.0 ≡ c.row }
    ensures text { result.text ≡ spot c.text }
    ensures escapes { result.escapes ≡ tally c.text }
{
    Accepted {
        rows: Row(c.row),
        text: c.spot(),
        escapes: c.tally(),
    }
}

// The answer for a document whose rows and text stand in rooms of our own, if the rows have room there.
fn settled(
    doc: &[u8],
    keys: &[u32],
    rows: &[u32],
    bytes: &[u8],
    counts: Accepted,
    table: &mut [u32],
    text: &mut [u8],
) -> Tried
    requires { Read doc.now keys.now rows.now bytes.now counts.rows.0 counts.text counts.escapes }
    ensures { Attempted doc.now table.old text.old result table.new text.new }
{
    if rows.len() < WIDTH * counts.rows.0 {
        return None;
    }
    if 0 < log_word(keys, LEFT) {
        return None;
    }
    Some(answer(doc, keys, rows, bytes, counts, table, text))
}

// The answer by rooms of our own for a document of at most BYTES bytes: they have so many bytes of text, words of rows and words of a log, and stand on the stack while it runs alone.
#[inline(never)]
fn in_rooms<const BYTES: usize, const WORDS: usize, const LOG: usize>(
    doc: &[u8],
    table: &mut [u32],
    text: &mut [u8],
) -> Tried
    requires { (length doc.now ≤ BYTES) × (BYTES ≤ limit) × (WORDS ≤ limit) × (4 < LOG) × (LOG ≤ 13124) × (LOG % 4 ≡ 0) }
    ensures { Attempted doc.now table.old text.old result table.new text.new }
{
    let mut keys = [0u32; LOG];
    let mut rows = [0u32; WORDS];
    let mut bytes = [0u8; BYTES];
    attempt(doc, &mut keys, &mut rows, &mut bytes, table, text)
}

// The answer for a document that was passed over, and whose first repeated key is known: it is read again, into the rooms lent.
fn filled(
    doc: &[u8],
    first: Option<usize>,
    counts: Accepted,
    table: &mut [u32],
    text: &mut [u8],
) -> Result<Accepted, Refusal>
    requires { Passed doc.now counts.rows.0 counts.text counts.escapes × Repeated doc.now first }
    ensures answered { Answered doc.now table.old text.old (number result) (value result) (second result) table.new text.new }
    ensures totals { Totals doc.now (number result) (third result) }
{
    let mut none = [0u32; 1];
    if let Some(p) = first {
        return Err(Refusal::Repeat(Place(p)));
    }
    if table.len() < WIDTH * counts.rows.0 {
        return Err(Refusal::Rows(counts.rows));
    }
    if text.len() < counts.text {
        return Err(Refusal::Text(counts.text));
    }
    let _ = pass(doc, table, text, &mut none, DEEPEST);
    line_up(doc, table, counts.rows.0);
    Ok(counts)
}

// The same for a document whose keys are noted, if the log had room for all.
fn noted(doc: &[u8], keys: &[u32], counts: Accepted, table: &mut [u32], text: &mut [u8]) -> Tried
    requires { Noted doc.now keys.now counts.rows.0 counts.text counts.escapes }
    ensures { Attempted doc.now table.old text.old result table.new text.new }
{
    if 0 < log_word(keys, LEFT) {
        return None;
    }
    let first = first_again(doc, keys);
    Some(filled(doc, first, counts, table, text))
}

// The answer for a document of many bytes, if the log takes all its keys: it is passed over first, and its keys are noted.
#[inline(never)]
fn of_many_bytes(doc: &[u8], table: &mut [u32], text: &mut [u8]) -> Tried
    requires { length doc.now ≤ limit }
    ensures { Attempted doc.now table.old text.old result table.new text.new }
{
    if MANY < doc.len() {
        return None;
    }
    let mut keys = [0u32; FIRST + 2 * MOST];
    match check(doc, table, text, &mut keys, DEEPEST) {
        Err(p) => Some(Err(blame(doc, table, text, p))),
        Ok(c) => noted(doc, &keys, counted(c), table, text),
    }
}

// The answer for a document whose keys were sieved.
fn sieved(
    doc: &[u8],
    keys: &mut [u32],
    counts: Accepted,
    table: &mut [u32],
    text: &mut [u8],
) -> Result<Accepted, Refusal>
    requires { Passed doc.now counts.rows.0 counts.text counts.escapes × Swept doc.now keys.old 1 }
    ensures answered { Answered doc.now table.old text.old (number result) (value result) (second result) table.new text.new }
    ensures totals { Totals doc.now (number result) (third result) }
{
    let first = first_repeat(doc, keys);
    filled(doc, first, counts, table, text)
}

// The answer for any document: it is passed over first, and its keys are sieved.
#[inline(never)]
fn of_any_bytes(doc: &[u8], table: &mut [u32], text: &mut [u8]) -> Result<Accepted, Refusal>
    requires { length doc.now ≤ limit }
    ensures answered { Answered doc.now table.old text.old (number result) (value result) (second result) table.new text.new }
    ensures totals { Totals doc.now (number result) (third result) }
{
    let mut keys = [0u32; LARGE];
    keys[MODE] = 1;
    match check(doc, table, text, &mut keys, DEEPEST) {
        Err(p) => Err(blame(doc, table, text, p)),
        Ok(c) => sieved(doc, &mut keys, counted(c), table, text),
    }
}

// The rows guessed at a byte: two at a colon, for a key and its value; one at a dash, a comma and an opening bracket.
fn rows_at(b: u8) -> u8
    ensures { result ≤ 2 }
{
    match b {
        58 => 2,
        44 | 45 | 91 => 1,
        _ => 0,
    }
}

// The rows guessed in 64 bytes.
fn rows_in(part: &[u8]) -> usize
    requires { length part.now ≡ 64 }
    ensures { result ≤ 128 }
{
    let mut n: u8 = 0;
    for i in 0..64 {
        n += rows_at(part[i]);
    }
    n as usize
}

// Whether a document of at most so many bytes promises fewer rows than there is room for, by eight parts of it; short ones have no more than a row for two bytes. A wrong guess costs time alone.
fn sparse(doc: &[u8], bytes: usize, rows: usize) -> bool
    requires { (length doc.now ≤ limit) × (256 ≤ rows) × (rows ≤ 1700) }
    ensures { result ≡ true → length doc.now ≤ bytes }
{
    let n = doc.len();
    if bytes < n {
        return false;
    }
    if n <= 2 * rows {
        return true;
    }
    let part = n / 8;
    let mut guessed = 0;
    for i in 0..8 {
        guessed += rows_in(&doc[i * part..i * part + 64]);
    }
    guessed * n < rows * 512
}

// The same, where they have bytes enough for the document, and rows enough for what it promises.
#[tactic(auto, using(crate::specs::Filling::attempt_few))]
fn in_rooms_for<const BYTES: usize, const ROWS: usize, const WORDS: usize, const LOG: usize>(
    doc: &[u8],
    table: &mut [u32],
    text: &mut [u8],
) -> Tried
    requires { (length doc.now ≤ limit) × (256 ≤ ROWS) × (ROWS ≤ 1700) × (BYTES ≤ limit) × (WORDS ≤ limit) × (4 < LOG) × (LOG ≤ 13124) × (LOG % 4 ≡ 0) }
    ensures { Attempted doc.now table.old text.old result table.new text.new }
{
    if !sparse(doc, BYTES, ROWS) {
        return None;
    }
    in_rooms::<BYTES, WORDS, LOG>(doc, table, text)
}

// The answer by the smallest rooms of our own that do.
#[tactic(auto, using(crate::specs::Filling::attempt_there, crate::specs::Filling::attempt_again))]
fn in_own_rooms(doc: &[u8], table: &mut [u32], text: &mut [u8]) -> Tried
    requires { length doc.now ≤ limit }
    ensures { Attempted doc.now table.old text.old result table.new text.new }
{
    if let Some(a) = in_rooms_for::<FEW, FEW_ROWS, FEW_WORDS, FEW_LOG>(doc, table, text) {
        return Some(a);
    }
    if let Some(a) = in_rooms_for::<SOME, SOME_ROWS, SOME_WORDS, SOME_LOG>(doc, table, text) {
        return Some(a);
    }
    in_rooms_for::<MORE, MORE_ROWS, MORE_WORDS, MORE_LOG>(doc, table, text)
}

// Reads a document into the rooms lent; a refusal leaves them as they came. What rooms of our own do not hold is passed over first.
pub fn read(doc: &[u8], table: &mut [u32], text: &mut [u8]) -> Result<Accepted, Refusal>
    ensures answered { Answered doc.now table.old text.old (number result) (value result) (second result) table.new text.new }
    ensures totals { Totals doc.now (number result) (third result) }
{
    if LIMIT < doc.len() {
        return Err(Refusal::Long);
    }
    if let Some(a) = in_own_rooms(doc, table, text) {
        return a;
    }
    if let Some(a) = of_many_bytes(doc, table, text) {
        return a;
    }
    of_any_bytes(doc, table, text)
}
