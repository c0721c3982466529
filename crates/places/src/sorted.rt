// Keys in the order of their names, each found by halving: so no keys, however chosen, take a number of comparisons that grows with the square of theirs.
ghost use Rattle.std.specs.Prelude.{◌<◌, ◌≤◌, length};
ghost use Rattle.repeats.specs.Later.{Names, Later};
ghost use Rattle.places.specs.Places.{place_keys, Placed};
ghost use Rattle.places.specs.Joins.{Seeking, Finds, Joining, Joined};

use super::names::{marks_of, object_of, ordered, place_of};
use repeats::{insert, word};
use std::cmp::Ordering;

// Behind how many of those before it the i-th key belongs, if it is the same as none of them.
#[tactic(auto, using(crate::specs::Joins::finding))]
fn find(doc: &[u8], keys: &[u32], marks: &[u32], order: &[u16], i: usize) -> Option<usize>
    requires { Seeking doc.now keys.now marks.now order.now i }
    ensures { Finds doc.now keys.now order.now i result }
{
    // Stays (point 6): `binary_search_by` calls its closure at any word, and a key is compared only with one that is noted (`ordered`'s `Compared`).
    let mut lo = 0;
    let mut hi = i;
    while lo < hi {
        let mid = (lo + hi) / 2;
        let k = word(order, mid);
        match ordered(doc, keys, marks, i, k) {
            Ordering::Less => {
                hi = mid;
            }
            Ordering::Equal => {
                return None;
            }
            Ordering::Greater => {
                lo = mid + 1;
            }
        }
    }
    Some(lo)
}

// Whether the i-th key is among those before it; if not it joins them.
#[tactic(auto, using(crate::specs::Joins::joining))]
fn joined(doc: &[u8], keys: &[u32], order: &mut [u16], marks: &mut [u32], i: usize) -> bool
    requires { Joining doc.now keys.now order.old marks.old i }
    ensures { Joined doc.now keys.now order.new marks.new i result }
{
    let m = marks_of(doc, place_of(keys, i), object_of(keys, i));
    marks[i] = m.mark;
    match find(doc, keys, marks, order, i) {
        None => true,
        Some(p) => {
            insert(order, p, i);
            false
        }
    }
}

// The first of n keys that is the same as an earlier one.
#[tactic(auto, using(crate::specs::Joins::sorting))]
pub fn sorted(
    doc: &[u8],
    keys: &[u32],
    order: &mut [u16],
    marks: &mut [u32],
    n: usize,
) -> Option<usize>
    requires { Placed doc.now keys.now n × (n ≤ length order.old) × (n ≤ length marks.old) }
    ensures { Names (Later (place_keys doc.now keys.now) n) result }
{
    for i in 0..n {
        if joined(doc, keys, order, marks, i) {
            return Some(place_of(keys, i));
        }
    }
    None
}
