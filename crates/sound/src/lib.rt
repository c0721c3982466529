// Whether a table, a count of rows and a text room are sound: each row in its turn is tested for what the tree of a document would have there.
// Stays (point 5): table, stop, text, r and x go as parameters: stop is another inside each container, r and x in each row, and a struct of the table and the text alone would put a field's name before each use for one parameter fewer.
#![tactic(auto)]

ghost use Rattle.std.specs.Prelude.{◌≡◌, suc, ◌+◌, ◌*◌, ◌≤◌, ◌<◌, length, get_or};
ghost use Rattle.exact.specs.Tells.{Tells};
ghost use Rattle.notation.specs.Class.{pick};
ghost use Rattle.language.specs.Tree.{width};
ghost use Rattle.language.specs.Answered.{BADROW};
ghost use Rattle.language.specs.Written.{Sounded};
ghost use Rattle.sound.specs.Members.{Sane, One, IsKey, Member, container_kind};
ghost use Rattle.sound.specs.Tested.{Lies, Tests};
ghost use Rattle.sound.specs.Rows.{kind_at, parent_at, Words};
ghost use Rattle.sound.specs.Contract.{Whole, Row, TextTests, Went, Closing};

mod keys;

use distinct::apart;
use keys::Rows;
pub use keys::{key_in_chains, key_in_order, same_key};
use language::{DEEPEST, Kind, WIDTH, bytes_lent, rows_lent};
use texts::{scalar_text, scripted};

// What testing rows gives, unless no tree has them: the row and the text byte behind them.
#[derive(Clone, Copy)]
pub struct Tested {
    pub row: usize,
    pub text: usize,
}

// What passing the members of a container gives, unless one is none: how many they are, and the text byte behind them.
#[derive(Clone, Copy)]
pub struct Several {
    pub count: usize,
    pub text: usize,
}

// Word j of row r.
pub fn word(table: &[u32], r: usize, j: usize) -> usize
    requires { width * r + j < length table.now }
    ensures { (result ≡ get_or table.now (width * r + j) 0) × (result < 4294967296) }
{
    table[WIDTH * r + j] as usize
}

// Whether the text start, the text end and the next row of row r are these.
#[tactic(auto, using(crate::proofs::RowLaws::wording))]
fn row_is(table: &[u32], r: usize, from: usize, to: usize, next: usize) -> bool
    requires { Whole table.now r }
    ensures { Tells (Words table.now r from to next) result }
{
    word(table, r, 3) == from && word(table, r, 4) == to && word(table, r, 6) == next
}

// A null, false or true.
#[tactic(auto, using(crate::proofs::RowLaws::keywording))]
fn keyword(
    table: &[u32],
    stop: usize,
    text: &[u8],
    r: usize,
    x: usize,
    allow: usize,
) -> Option<Tested>
    requires { Row table.now text.now stop r x × (1 ≤ kind_at table.now r) × (kind_at table.now r ≤ 3) }
    ensures { Tests table.now text.now (One (Sane allow)) stop r (parent_at table.now r) x result }
{
    if row_is(table, r, 0, 0, r + 1) {
        return Some(Tested {
            row: r + 1,
            text: x,
        });
    }
    None
}

// A row with a text, which goes on from x: the place behind the text.
#[tactic(auto, using(crate::proofs::RowLaws::texting))]
fn texted(table: &[u32], stop: usize, text: &[u8], r: usize, x: usize) -> Option<Tested>
    requires { Row table.now text.now stop r x }
    ensures { TextTests table.now text.now r x result }
{
    let end = word(table, r, 4);
    if x <= end && end <= bytes_lent(text) && row_is(table, r, x, end, r + 1) {
        return Some(Tested {
            row: r + 1,
            text: end,
        });
    }
    None
}

// A scalar with a text.
#[tactic(auto, using(crate::proofs::RowLaws::scaling))]
fn scalar(
    table: &[u32],
    stop: usize,
    text: &[u8],
    r: usize,
    x: usize,
    allow: usize,
) -> Option<Tested>
    requires { Row table.now text.now stop r x × (3 < kind_at table.now r) × (kind_at table.now r ≤ 7) }
    ensures { Tests table.now text.now (One (Sane allow)) stop r (parent_at table.now r) x result }
{
    let t = texted(table, stop, text, r, x)?;
    if scalar_text(text, Kind(table[WIDTH * r]), x, t.text) {
        return Some(t);
    }
    None
}

// A key of the object at `parent`, in a row below `stop`.
#[tactic(auto, using(crate::proofs::RowLaws::keying))]
fn key(table: &[u32], stop: usize, text: &[u8], r: usize, parent: usize, x: usize) -> Option<Tested>
    requires { Lies table.now text.now stop x }
    ensures { Tests table.now text.now (One IsKey) stop r parent x result }
{
    if stop <= r || word(table, r, 0) != 10 || word(table, r, 5) != parent {
        return None;
    }
    let t = texted(table, stop, text, r, x)?;
    if scripted(text, x, t.text) {
        return Some(t);
    }
    None
}

// A container whose n members are passed, and whose text ends at y.
// Stays (point 6): n counts members, and no words of `table`.
#[tactic(auto, using(crate::proofs::CycleLaws::closing))]
fn closed(
    table: &[u32],
    stop: usize,
    text: &[u8],
    r: usize,
    x: usize,
    allow: usize,
    object: bool,
    n: usize,
    y: usize,
) -> Option<Tested>
    requires { Closing table.now text.now stop r x allow object n y }
    ensures { Tests table.now text.now (One (Sane (suc allow))) stop r (parent_at table.now r) x result }
{
    let end = word(table, r, 6);
    if !row_is(table, r, 0, n, end) {
        return None;
    }
    if object && !apart(&Rows(table), text, r + 1, end, n) {
        return None;
    }
    Some(Tested { row: end, text: y })
}

// The cycle. A value in a row below `stop`, with an allowance of containers one inside another.
#[tactic(auto, using(crate::proofs::CycleLaws::valuing))]
#[cycle(child_children_container_of_kind_value)]
fn value(
    table: &[u32],
    stop: usize,
    text: &[u8],
    r: usize,
    parent: usize,
    x: usize,
    allow: usize,
) -> Option<Tested>
    requires { Lies table.now text.now stop x }
    ensures { Tests table.now text.now (One (Sane allow)) stop r parent x result }
{
    if stop <= r || word(table, r, 5) != parent {
        return None;
    }
    of_kind(table, stop, text, r, x, allow)
}

// The same by the row's kind.
#[tactic(auto, using(crate::proofs::CycleLaws::kinding))]
#[cycle(child_children_container_of_kind_value)]
fn of_kind(
    table: &[u32],
    stop: usize,
    text: &[u8],
    r: usize,
    x: usize,
    allow: usize,
) -> Option<Tested>
    requires { Row table.now text.now stop r x }
    ensures { Tests table.now text.now (One (Sane allow)) stop r (parent_at table.now r) x result }
{
    match word(table, r, 0) {
        1..=3 => keyword(table, stop, text, r, x, allow),
        4..=7 => scalar(table, stop, text, r, x, allow),
        8 => container(table, stop, text, r, x, allow, false),
        9 => container(table, stop, text, r, x, allow, true),
        _ => None,
    }
}

// A container: its members are told by the next row, and have one container less allowed.
#[tactic(auto, using(crate::proofs::CycleLaws::containing))]
#[cycle(child_children_container_of_kind_value)]
fn container(
    table: &[u32],
    stop: usize,
    text: &[u8],
    r: usize,
    x: usize,
    allow: usize,
    object: bool,
) -> Option<Tested>
    requires { Row table.now text.now stop r x × (kind_at table.now r ≡ container_kind object) }
    ensures { Tests table.now text.now (One (Sane allow)) stop r (parent_at table.now r) x result }
{
    let end = word(table, r, 6);
    if allow == 0 || end <= r || stop < end {
        return None;
    }
    let m = children(table, end, text, r, x, allow - 1, object)?;
    closed(table, stop, text, r, x, allow - 1, object, m.count, m.text)
}

// Its members: how many they are, and the text byte behind them.
#[tactic(auto, using(crate::proofs::CycleLaws::going))]
#[cycle(child_children_container_of_kind_value)]
fn children(
    table: &[u32],
    end: usize,
    text: &[u8],
    r: usize,
    x: usize,
    allow: usize,
    object: bool,
) -> Option<Several>
    requires { Lies table.now text.now end x × (r < end) }
    ensures { Went table.now text.now object allow r x end result }
{
    let mut at = r + 1;
    let mut y = x;
    let mut n = 0;
    while at < end {
        let t = child(table, end, text, at, r, y, allow, object)?;
        at = t.row;
        y = t.text;
        n += 1;
    }
    Some(Several { count: n, text: y })
}

// An element, or a key and its value.
#[tactic(auto, using(crate::proofs::CycleLaws::childing))]
#[cycle(child_children_container_of_kind_value)]
fn child(
    table: &[u32],
    stop: usize,
    text: &[u8],
    r: usize,
    parent: usize,
    x: usize,
    allow: usize,
    object: bool,
) -> Option<Tested>
    requires { Lies table.now text.now stop x }
    ensures { Tests table.now text.now (Member object allow) stop r parent x result }
{
    if object {
        let k = key(table, stop, text, r, parent, x)?;
        return value(table, stop, text, k.row, parent, k.text, allow);
    }
    value(table, stop, text, r, parent, x, allow)
}

// Whether the rows are those of a document's tree, and the text its text.
#[tactic(auto, using(crate::proofs::SoundLaws::sounding))]
pub fn sound(table: &[u32], rows: usize, text: &[u8]) -> bool
    ensures { Sounded table.now rows text.now (pick result 0 BADROW) }
{
    if rows_lent(table) < rows {
        return false;
    }
    match value(table, rows, text, 0, 0, 0, DEEPEST) {
        Some(t) => t.row == rows,
        None => false,
    }
}
