// The characters of UTF-8 by the table of their states: the test for CHAR, and the byte that refuses a character.
ghost use Rattle.std.specs.Prelude.{◌≡◌, ◌+◌, ◌-◌, ◌≤◌, ◌<◌, length, get_or};
ghost use Rattle.utf8.specs.Allowed.{bad_char};
ghost use Rattle.characters.specs.Reads.{WideAt};
ghost use Rattle.utf8.specs.Scan.{rows, find, fits_at, caught_by};

use super::Skip;

// The states of a character in UTF-8, four bytes for each range: a state, the least and the greatest byte, the state after it. A character begins at 1.
// Stays (points 1, 6): states are numbers, 0 for none, and rows lie in one list, as `rows`, `find` and `code` of utf8::specs::Scan have them.
const TABLE: [u8; 176] =
    *b"\x01\xc2\xc2\x04\x01\xc3\xdf\x02\x01\xe0\xe0\x05\x01\xe1\xec\x03\x01\xee\xee\x03\x01\xed\xed\x06\x01\xef\xef\x07\x01\xf0\xf0\x09\x01\xf1\xf1\x0a\x01\xf2\xf2\x0a\x01\xf3\xf3\x0a\x01\xf4\xf4\x0b\x01\x0a\x0a\x01\x01\x20\x7e\x01\x02\x80\xbf\x01\x03\x80\xbf\x02\x04\xa0\xbf\x01\x05\xa0\xbf\x02\x06\x80\x9f\x02\x07\x80\xb6\x02\x07\xb8\xbe\x02\x07\xb7\xb7\x08\x07\xbf\xbf\x0d\x08\x80\x8f\x01\x08\xb0\xbf\x01\x09\x90\x9e\x03\x09\xa0\xae\x03\x09\xb0\xbe\x03\x09\x9f\x9f\x0c\x09\xaf\xaf\x0c\x09\xbf\xbf\x0c\x0a\x80\x8e\x03\x0a\x90\x9e\x03\x0a\xa0\xae\x03\x0a\xb0\xbe\x03\x0a\x8f\x8f\x0c\x0a\x9f\x9f\x0c\x0a\xaf\xaf\x0c\x0a\xbf\xbf\x0c\x0b\x80\x8e\x03\x0b\x8f\x8f\x0c\x0c\x80\xbe\x02\x0c\xbf\xbf\x0d\x0d\x80\xbd\x01";

// The row of the table from i on is of that state and has the byte b.
#[tactic(auto, using(crate::proofs::Chars::chars))]
fn fits(table: &[u8], i: usize, state: u8, b: u8) -> bool
    requires { i + 3 < length table.now }
    ensures { result ≡ fits_at table.now i state b }
{
    table[i] == state && table[i + 1] <= b && b <= table[i + 2]
}

// The state after the byte b, by the table; 0 is none.
#[tactic(auto, using(crate::proofs::Chars::chars))]
fn step(table: &[u8], state: u8, b: u8) -> u8
    requires { length table.now ≡ 176 }
    ensures { result ≡ find table.now state b }
{
    for j in 0..44 {
        if fits(table, 4 * j, state, b) {
            return table[4 * j + 3];
        }
    }
    0
}

// The same for a byte before the place of a refusal: where no character is seen to start yet, tail bytes are passed over.
#[tactic(auto, using(crate::proofs::Chars::chars))]
fn catch_byte(table: &[u8], state: u8, b: u8) -> u8
    requires { table.now ≡ rows }
    ensures { result ≡ caught_by state b }
{
    if state == 1 && 128 <= b && b <= 191 {
        state
    } else {
        step(table, state, b)
    }
}

#[tactic(auto, using(crate::proofs::Chars::chars))]
fn bad_byte(doc: &[u8], table: &[u8], p: usize) -> bool
    requires p_in_bounds { p < length doc.now }
    requires table_value { table.now ≡ rows }
    ensures { result ≡ bad_char p doc.now }
{
    let mut state: u8 = 1;
    for i in p.saturating_sub(3)..p {
        state = catch_byte(table, state, doc[i]);
    }
    step(table, state, doc[p]) == 0
}

// The bytes through p begin no sequence of allowed characters, where those before it do.
pub fn bad_char(doc: &[u8], p: usize) -> bool
    requires { p < length doc.now }
    ensures { result ≡ bad_char p doc.now }
{
    bad_byte(doc, &TABLE, p)
}

// Where the character of 128 or more ends that begins at `at`, or the byte that refuses it, by the table.
#[tactic(auto, using(crate::proofs::Chars::walking))]
fn walk(doc: &[u8], table: &[u8], at: usize) -> Skip
    requires at_in_bounds { at < length doc.now }
    requires bound { 128 ≤ get_or doc.now at 0 }
    requires table_value { table.now ≡ rows }
    ensures { WideAt doc.now at result }
{
    let mut state: u8 = 1;
    for i in at..doc.len() {
        state = step(table, state, doc[i]);
        match state {
            0 => return Err(i),
            1 => return Ok(i + 1),
            _ => {}
        }
    }
    Err(doc.len())
}

// The table is made here alone: only refusals come here.
pub fn walk_end(doc: &[u8], at: usize) -> Skip
    requires at_in_bounds { at < length doc.now }
    requires bound { 128 ≤ get_or doc.now at 0 }
    ensures { WideAt doc.now at result }
{
    walk(doc, &TABLE, at)
}
