// The keys handed on while a document is passed over. A small room notes for each its object's row and its first byte; a large one sieves them, or notes those that pass a filter.
// Stays (points 5, 6): the document, the lent room of keys and what `Sifting` asks of them go as parameters. A struct that holds the `&mut` slices would need a clause in every contract that it still holds the same ones.
#![tactic(auto)]

ghost use Rattle.std.specs.Prelude.{◌≡◌, ◌++◌, ◌+◌, ◌*◌, ◌%◌, ◌≤◌, ◌<◌, length, get_or, set, take, drop};
ghost use Rattle.language.specs.Answered.{limit};
ghost use Rattle.spelt.specs.Texts.{spelled};
ghost use Rattle.spelt.specs.Reading.{Keyed};
ghost use Rattle.sieve.specs.Sieve.{large};
ghost use Rattle.notes.specs.Noted.{entered, noted};
ghost use Rattle.notes.specs.Handed.{log, factor_of, passing, Sifting, Sown, Sifts, Handed};

pub use sieve::log_word;
use sieve::{FILTER, LARGE, LOG, MODE, ROUND, bit, class_of, sieve};
use spelt::hash;

// A log has four words before the first key: how many are noted; how many are passed by before the next is; how many once half of the log is full; how many came when it was full.
pub const NOTED: usize = 0;

pub const PASS: usize = 1;

pub const BETWEEN: usize = 2;

pub const LEFT: usize = 3;

pub const FIRST: usize = 4;

// A word has so many values.
const WORDS: usize = 4294967296;

// The n-th key of the log takes its two words. Once half of the log is full, keys may be passed by.
#[tactic(auto, using(crate::specs::Noted::entering))]
fn enter(keys: &mut [u32], n: usize, object: u32, at: usize)
    requires { (4 + 2 * n + 2 ≤ length keys.old) × (n < 4294967296) × (at ≤ limit) }
    ensures { keys.new ≡ entered keys.old n object at }
{
    keys[FIRST + 2 * n] = object;
    keys[FIRST + 2 * n + 1] = at as u32;
    keys[NOTED] = ((n + 1) % WORDS) as u32;
    if n + 1 == (keys.len() - FIRST) / 4 {
        keys[PASS] = keys[BETWEEN];
    }
}

// One more for which there is no room.
#[tactic(auto, using(crate::specs::Noted::left_one))]
fn leave(keys: &mut [u32])
    requires { 4 ≤ length keys.old }
    ensures { keys.new ≡ set keys.old 3 ((get_or keys.old 3 0 + 1) % 4294967296) }
{
    keys[LEFT] = ((log_word(keys, LEFT) + 1) % WORDS) as u32;
}

// Notes the key of an object that begins at a place, or passes it by; one for which there is no room is counted.
#[tactic(auto, using(crate::specs::Noted::noting))]
fn put(keys: &mut [u32], object: u32, at: usize)
    requires { at ≤ limit }
    ensures { keys.new ≡ noted keys.old object at }
{
    if keys.len() < FIRST {
        return;
    }
    let pass = log_word(keys, PASS);
    if 0 < pass {
        keys[PASS] = (pass - 1) as u32;
        return;
    }
    let n = log_word(keys, NOTED);
    if FIRST + 2 * n + 2 <= keys.len() {
        enter(keys, n, object, at);
    } else {
        leave(keys);
    }
}

// The factor of a round's hash.
fn factor(round: usize) -> usize
    requires { round ≤ 4294967296 }
    ensures { result ≡ factor_of round }
{
    (2654435761 + 180000002 * round) % WORDS
}

// Whether a key passes the filter.
#[tactic(auto, using(crate::specs::Handed::passes))]
fn passes(doc: &[u8], keys: &[u32], object: usize, at: usize) -> bool
    requires { Sifting doc.now keys.now object at }
    ensures { result ≡ passing keys.now object (spelled doc.now at) }
{
    let round = log_word(keys, ROUND);
    if round < 1 {
        return true;
    }
    let h = hash(doc, at, object, factor(round));
    bit(keys, FILTER, class_of(h))
}

// Notes a key in the log of a large room.
#[tactic(auto, using(crate::specs::Handed::list_done, crate::specs::Handed::prefix_long))]
fn list(keys: &mut [u32], object: u32, at: usize)
    requires { (length keys.old ≡ large) × (at ≤ limit) }
    ensures { keys.new ≡ noted (take log keys.old) object at ++ drop log keys.old }
{
    put(&mut keys[..LOG], object, at);
}

// Sieves a key of an object at a depth.
#[tactic(auto, using(crate::specs::Handed::sowing))]
fn sow(doc: &[u8], keys: &mut [u32], object: usize, at: usize, d: usize)
    requires { Sifting doc.now keys.old object at }
    ensures { Sown doc.now keys.old object at keys.new }
{
    let round = log_word(keys, ROUND);
    let h = hash(doc, at, object, factor(round + 1));
    sieve(keys, d, object, h);
}

// A key handed to a large room.
#[tactic(auto, using(crate::specs::Handed::sifting))]
fn sift(doc: &[u8], keys: &mut [u32], object: u32, at: usize, d: usize)
    requires { Sifting doc.now keys.old object at }
    ensures { Sifts doc.now keys.old object at keys.new }
{
    if passes(doc, keys, object as usize, at) {
        if log_word(keys, MODE) < 1 {
            list(keys, object, at);
        } else {
            sow(doc, keys, object as usize, at, d);
        }
    }
}

// Handed the key of an object that begins at a place; its depth is a hint that picks a list.
#[tactic(auto, using(crate::specs::Handed::taking))]
pub fn note(doc: &[u8], keys: &mut [u32], object: u32, at: usize, d: usize)
    requires { Keyed doc.now at }
    ensures { Handed doc.now keys.old object at keys.new }
{
    if keys.len() == LARGE {
        sift(doc, keys, object, at, d);
    } else {
        put(keys, object, at);
    }
}
