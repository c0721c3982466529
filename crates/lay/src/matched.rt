// The keys of one object in another: one by one where they are few, else a window of them at a time.
// Stays (point 5): no plainer. The keys that are left (table, q, end) are others at each call, and beside the other object (other, s) they stand in one clause already, `Match`.
ghost use Rattle.std.specs.Prelude.{◌≡◌, ◌≤◌, ◌<◌, length, get_or};
ghost use Rattle.std.specs.Option.{unwrap_or};
ghost use Rattle.overlay.specs.Overlay.{pairs_of};
ghost use Rattle.sound.specs.Keys.{text_at};
ghost use Rattle.sound.specs.Pairwise.{Named};
ghost use Rattle.lay.specs.Targets.{ceiling};
ghost use Rattle.lay.specs.Matching.{Seek, Mark, row_of, Match, Matched, Refill, Refilled};

use super::Table;
use super::windows::window_of;
use sound::{same_key, word};
use std::ops::Range;

// So few keys are sought one by one, since clearing rooms takes longer.
const FEW: usize = 16;

// Rooms are cleared first, so some keys have smaller ones. More keys than the largest rooms take are marked in several windows.
const SOME: usize = 512;

const MOST: usize = 3072;

// The row of the key, among those from `from` up to `stop`, that has the text of row q.
fn match_of(table: &Table, q: usize, other: &Table, from: usize, stop: usize) -> Option<usize>
    requires { Named table.now.rows.now table.now.text.now q × Seek other.now.rows.now other.now.text.now from stop }
    ensures { ((h : Seek other.now.rows.now other.now.text.now from stop) → Mark other.now.rows.now other.now.text.now (pairs_of h.trees) (text_at table.now.rows.now table.now.text.now q) result) × (unwrap_or result 0 < ceiling) }
{
    let mut r = from;
    while r < stop {
        if same_key(table.rows, table.text, q, other.rows, other.text, r) {
            return Some(r);
        }
        r = word(other.rows, r + 1, 6);
    }
    None
}

// The row that a word of the marks says.
// Stays (point 1): marks are words of a room of fixed size, 0 for none, as no key stands in the first row.
pub fn marked(marks: &[u32], i: usize) -> Option<usize>
    requires { i < length marks.now }
    ensures { result ≡ row_of (get_or marks.now i 0) }
{
    match marks[i] {
        0 => None,
        row => Some(row as usize),
    }
}

// Marks the keys from row q up to `end`, `most` of them at most, with their matches in the object in row s of the other table: how many they are.
fn few_matches(
    table: &Table,
    q: usize,
    end: usize,
    other: &Table,
    s: usize,
    marks: &mut [u32],
    most: usize,
) -> usize
    requires { Match table.now.rows.now table.now.text.now q end other.now.rows.now other.now.text.now s × (0 < most) × (most ≤ length marks.old) }
    ensures { Matched table.now.rows.now table.now.text.now q end other.now.rows.now other.now.text.now s marks.new most result }
{
    let stop = word(other.rows, s, 6);
    let mut r = q;
    let mut n = 0;
    while r < end {
        if n == most {
            return n;
        }
        marks[n] = match_of(table, r, other, s + 1, stop).unwrap_or(0) as u32;
        n += 1;
        r = word(table.rows, r + 1, 6);
    }
    n
}

// The same, by the number of keys: half the rows that are left are keys at most.
pub fn matches(
    table: &Table,
    q: usize,
    end: usize,
    other: &Table,
    s: usize,
    marks: &mut [u32],
    most: usize,
) -> usize
    requires { Match table.now.rows.now table.now.text.now q end other.now.rows.now other.now.text.now s × (0 < most) × (most ≤ length marks.old) }
    ensures { Matched table.now.rows.now table.now.text.now q end other.now.rows.now other.now.text.now s marks.new most result }
{
    let keys = (end - q) / 2;
    if keys <= FEW {
        few_matches(table, q, end, other, s, marks, most)
    } else if keys <= SOME {
        window_of::<SOME>(table, q, end, other, s, marks, most)
    } else {
        window_of::<MOST>(table, q, end, other, s, marks, most)
    }
}

// Marks for the keys from row q on: those that are left, or new ones; and where they stand.
pub fn refill(
    table: &Table,
    q: usize,
    end: usize,
    other: &Table,
    s: usize,
    marks: &mut [u32],
    most: usize,
    left: Range<usize>,
) -> Range<usize>
    requires { Refill table.now.rows.now table.now.text.now q end other.now.rows.now other.now.text.now s marks.old left.end left.start × (q < end) × (left.end ≤ most) × (0 < most) × (most ≤ length marks.old) }
    ensures { Refilled table.now.rows.now table.now.text.now q end other.now.rows.now other.now.text.now s marks.old left.end left.start marks.new most result.end result.start × (length marks.new ≡ length marks.old) }
{
    if left.start < left.end {
        return left;
    }
    0..matches(table, q, end, other, s, marks, most)
}
