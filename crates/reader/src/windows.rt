// The first repeated key among those that pass the filter of a large room: the document is passed over for every two halves of the room's log, one of earlier keys and one of later.
ghost use Rattle.std.specs.Prelude.{◌≤◌, length};
ghost use Rattle.language.specs.Answered.{limit};
ghost use Rattle.reader.specs.Windows.{list_of, Emptied, Asking, Seen, Sweeping, Crossed, Filed, Doubled};

use judge::check;
use language::{DEEPEST, LIMIT};
use notes::{BETWEEN, LEFT, NOTED, PASS, log_word};
use places::first_again;
use sieve::LOG;

// So many keys are half of the log.
pub const HALF: usize = 1640;

// The log is emptied; as many keys are passed by, and as many more once half of it is full.
#[tactic(auto, using(crate::specs::Windows::emptying))]
fn emptied(keys: &mut [u32], before: usize, between: usize)
    requires { (4 ≤ length keys.old) × (before ≤ limit) × (between ≤ limit) }
    ensures { Emptied keys.old before between keys.new }
{
    keys[NOTED] = 0;
    keys[PASS] = before as u32;
    keys[BETWEEN] = between as u32;
    keys[LEFT] = 0;
}

// The least place of a key that is the same as an earlier one, among half a log of keys from the i-th on and half a log from the j-th on; the limit, if there is none.
// Stays (point 1): `across` takes the least of these, and the limit is more than any place; by an Option it would have to say for each of two whether it is there.
#[tactic(auto, using(crate::specs::Windows::asking))]
fn window(doc: &[u8], keys: &mut [u32], i: usize, j: usize) -> usize
    requires { Asking doc.now (list_of doc.now keys.old) keys.old i j }
    ensures { Seen doc.now (list_of doc.now keys.old) keys.new i j result }
{
    let mut rows = [0u32; 1];
    let mut text = [0u8; 1];
    emptied(keys, i, j - (i + HALF));
    let _ = check(doc, &mut rows, &mut text, keys, DEEPEST);
    first_again(doc, &keys[..LOG]).unwrap_or(LIMIT)
}

// The least place of a key among half a log from the j-th on that is the same as an earlier one; the limit, if there is none.
#[tactic(auto, using(crate::specs::Windows::crossing))]
fn across(doc: &[u8], keys: &mut [u32], j: usize) -> usize
    requires { Sweeping doc.now (list_of doc.now keys.old) keys.old j }
    ensures { Crossed doc.now (list_of doc.now keys.old) keys.new j result }
{
    let mut best = LIMIT;
    for k in 0..j / HALF {
        best = window(doc, keys, k * HALF, j).min(best);
    }
    best
}

// The first repeated key behind a log that has none: half a log of keys after the other, until one has such a key or no keys are left.
#[tactic(auto, using(crate::specs::Windows::going))]
fn behind(doc: &[u8], keys: &mut [u32]) -> Option<usize>
    requires { Sweeping doc.now (list_of doc.now keys.old) keys.old 3280 }
    ensures { Doubled (list_of doc.now keys.old) result }
{
    let mut j = 2 * HALF;
    loop {
        let p = across(doc, keys, j);
        if p < LIMIT {
            return Some(p);
        }
        if log_word(keys, LEFT) < 1 {
            return None;
        }
        j += HALF;
    }
}

// The first repeated key among those that pass the filter.
#[tactic(auto, using(crate::specs::Windows::listing))]
pub fn listed(doc: &[u8], keys: &mut [u32]) -> Option<usize>
    requires { Filed doc.now (list_of doc.now keys.old) keys.old }
    ensures { Doubled (list_of doc.now keys.old) result }
{
    let p = window(doc, keys, 0, HALF);
    if p < LIMIT {
        return Some(p);
    }
    if log_word(keys, LEFT) < 1 {
        return None;
    }
    behind(doc, keys)
}
