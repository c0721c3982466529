// Lays a sound table whose root is an object over another, into a third.
#![tactic(auto)]

ghost use Rattle.std.specs.Prelude.{◌≡◌};
ghost use Rattle.exact.specs.Tells.{Tells};
ghost use Rattle.language.specs.Alike.{unspan};
ghost use Rattle.overlay.specs.Overlay as over;
ghost use Rattle.overlay.specs.Overlaid.{Given, Overlaid, gave_number, gave_first, gave_second};
ghost use Rattle.lay.specs.Laying.{Lays};
ghost use Rattle.lay.specs.Root.{ObjectIn, Roots, Counts, origin};

mod kept;
mod matched;
mod objects;
mod stores;
mod windows;

use language::{DEEPEST, bytes_lent, rows_lent};
use objects::object;
use overlay::{Filled, Gave, OverlayRefusal};
use sound::{sound, word};

// A table and the texts of its rows.
// Stays (point 5): the targets and a spot in them go as three parameters. A struct that holds the two `&mut` slices would need a clause in every contract that it still holds the same ones.
#[derive(Clone, Copy)]
pub struct Table<'a> {
    pub rows: &'a [u32],
    pub text: &'a [u8],
}

// The row and the text byte of the targets that come next.
#[derive(Clone, Copy, PartialEq, Eq, Debug)]
pub struct Spot {
    pub row: usize,
    pub text: usize,
}

// What comes next behind the upper's new pairs, and how many they are.
#[derive(Clone, Copy, PartialEq, Eq, Debug)]
pub struct Grown {
    pub at: Spot,
    pub count: usize,
}

// An object and another value for one key.
#[derive(Clone, Copy, PartialEq, Eq, Debug)]
pub struct Clash;

// What comes next, or a clash.
pub type Lay = Result<Spot, Clash>;

// Whether a table is sound and its root an object.
fn is_object(table: &Table, rows: usize) -> bool
    ensures { Tells (ObjectIn table.now.rows.now rows table.now.text.now) result }
{
    sound(table.rows, rows, table.text) && word(table.rows, 0, 0) == 9
}

// The whole walk, into these targets.
// Stays (point 5), as `count` and `answer` do: `Roots` is of both tables. A type with it as its fact would be made once, in `overlay`, and taken apart here, since the walk below moves on to other rows.
fn walk(lower: &Table, upper: &Table, rows: &mut [u32], room: &mut [u8]) -> Lay
    requires { Roots lower.now.rows.now lower.now.text.now upper.now.rows.now upper.now.text.now }
    ensures { (h : Roots lower.now.rows.now lower.now.text.now upper.now.rows.now upper.now.text.now) → Lays (unspan h.under) (unspan h.above) 0 origin rows.old rows.new room.old room.new result }
{
    let mut marks = [0u32; 6656];
    object(
        lower,
        0,
        upper,
        0,
        0,
        rows,
        room,
        &mut marks,
        DEEPEST,
        Spot { row: 0, text: 0 },
    )
}

// The same into targets of next to nothing: what is needed, or a clash.
fn count(lower: &Table, upper: &Table) -> Lay
    requires { Roots lower.now.rows.now lower.now.text.now upper.now.rows.now upper.now.text.now }
    ensures { (h : Roots lower.now.rows.now lower.now.text.now upper.now.rows.now upper.now.text.now) → Counts (unspan h.under) (unspan h.above) result }
{
    walk(lower, upper, &mut [0; 1], &mut [0; 1])
}

// The answer for two sound tables whose roots are objects.
fn answer(lower: &Table, upper: &Table, table: &mut [u32], text: &mut [u8]) -> Gave
    requires { Roots lower.now.rows.now lower.now.text.now upper.now.rows.now upper.now.text.now }
    ensures { (h : Roots lower.now.rows.now lower.now.text.now upper.now.rows.now upper.now.text.now) → Given table.old text.old (over.overlay h.under h.above) (gave_number result) (gave_first result) (gave_second result) table.new text.new }
{
    let Ok(need) = count(lower, upper) else {
        return Err(OverlayRefusal::Clash);
    };
    if rows_lent(table) < need.row {
        return Err(OverlayRefusal::TooFew(need.row));
    }
    if bytes_lent(text) < need.text {
        return Err(OverlayRefusal::TooShort(need.text));
    }
    let _ = walk(lower, upper, table, text);
    Ok(Filled {
        rows: need.row,
        bytes: need.text,
    })
}

// Lays the upper over the lower into the rooms lent; a refusal leaves them as they came.
pub fn overlay(
    lower: &[u32],
    lower_rows: usize,
    lower_text: &[u8],
    upper: &[u32],
    upper_rows: usize,
    upper_text: &[u8],
    table: &mut [u32],
    text: &mut [u8],
) -> Gave
    ensures { Overlaid lower.now lower_rows lower_text.now upper.now upper_rows upper_text.now table.old text.old (gave_number result) (gave_first result) (gave_second result) table.new text.new }
{
    let under = Table {
        rows: lower,
        text: lower_text,
    };
    let above = Table {
        rows: upper,
        text: upper_text,
    };
    if is_object(&under, lower_rows) && is_object(&above, upper_rows) {
        return answer(&under, &above, table, text);
    }
    Err(OverlayRefusal::BadRow)
}
