// Repeated keys, found by their places: the keys noted of a document stand in chains; where a chain grows long, in the order of their names.
// Stays (points 5, 6), here and in each file: the document, the log, the rooms and the count of keys in them go as parameters. The rooms have a fixed size (no heap), and a struct that holds the `&mut` slices would need a clause in every contract that it still holds the same ones.
#![tactic(auto)]

ghost use Rattle.std.specs.Prelude.{◌<◌, ◌≤◌, slice_index};
ghost use Rattle.repeats.specs.Numbering.{Same};
ghost use Rattle.repeats.specs.Walk.{Walks};
ghost use Rattle.repeats.specs.Links.{Met};
ghost use Rattle.repeats.specs.Later.{Names, Later};
ghost use Rattle.places.specs.Places.{place_keys, Placed};
ghost use Rattle.places.specs.Walks.{Walkable, Chaining, Chained, Starting};
ghost use Rattle.places.specs.Log.{Told};

mod names;
mod sorted;

use names::{marks_of, object_of, place_of, same_key};
use notes::{NOTED, log_word};
use repeats::{TooLong, chain_of, word};
use sorted::sorted;

// So many keys are looked through at a time; the stack has room for no more. Of more keys, every two halves of so many are.
pub const MOST: usize = 6560;

// Links and marks are cleared first, so few keys and some have fewer of them.
const FEW: usize = 512;

const SOME: usize = 2048;

// Those that a long document's log has at a time, whose room leaves less of the stack.
const MANY: usize = 3280;

// A chain is looked through so far.
const STEPS: usize = 16;

// Whether a key in the chain from `head` is the same as the i-th. A link leads to an earlier key, so the walk ends.
#[tactic(auto, using(crate::specs::Walks::walking))]
fn in_chain(
    doc: &[u8],
    keys: &[u32],
    marks: &[u32],
    links: &[u16],
    head: usize,
    i: usize,
) -> Result<bool, TooLong>
    requires { Walkable doc.now keys.now marks.now links.now head i }
    ensures { Walks (Met (Same (place_keys doc.now keys.now) i) links.now head) result }
{
    let mut h = head;
    let mut steps = 0;
    while 0 < h {
        if steps == STEPS {
            return Err(TooLong);
        }
        let k = h - 1;
        if same_key(doc, keys, marks, i, k) {
            return Ok(true);
        }
        h = word(links, k);
        steps += 1;
    }
    Ok(false)
}

// Whether the i-th key is the same as an earlier one; it becomes the head of its chain.
#[tactic(auto, using(crate::specs::Walks::chaining))]
fn chained(
    doc: &[u8],
    keys: &[u32],
    heads: &mut [u16],
    links: &mut [u16],
    marks: &mut [u32],
    i: usize,
) -> Result<bool, TooLong>
    requires { Chaining doc.now keys.now heads.old links.old marks.old i }
    ensures { Chained doc.now keys.now heads.new links.new marks.new i result }
{
    let m = marks_of(doc, place_of(keys, i), object_of(keys, i));
    marks[i] = m.mark;
    let c = chain_of(m.stir);
    let head = word(heads, c);
    let walk = in_chain(doc, keys, marks, links, head, i);
    links[i] = heads[c];
    heads[c] = (i + 1) as u16;
    walk
}

// The first of n keys that is the same as an earlier one, over chains with no key in them. Keys are noted in the order of their places, so it is the least.
#[tactic(auto, using(crate::specs::Walks::passing))]
fn repeated(
    doc: &[u8],
    keys: &[u32],
    heads: &mut [u16],
    links: &mut [u16],
    marks: &mut [u32],
    n: usize,
) -> Option<usize>
    requires { Starting doc.now keys.now heads.old links.old marks.old n }
    ensures { Names (Later (place_keys doc.now keys.now) n) result }
{
    for i in 0..n {
        match chained(doc, keys, heads, links, marks, i) {
            Ok(true) => return Some(place_of(keys, i)),
            Ok(false) => {}
            Err(_) => return sorted(doc, keys, links, marks, n),
        }
    }
    None
}

// The same over links for N keys, which stand on the stack while it runs alone.
#[inline(never)]
fn among<const N: usize>(doc: &[u8], keys: &[u32], n: usize) -> Option<usize>
    requires { Placed doc.now keys.now n × (n ≤ N) × (N ≤ 6560) }
    ensures { Names (Later (place_keys doc.now keys.now) n) result }
{
    let mut heads = [0u16; 4096];
    let mut links = [0u16; N];
    let mut marks = [0u32; N];
    repeated(doc, keys, &mut heads, &mut links, &mut marks, n)
}

// The least place of a key noted that is the same as an earlier one of its object. One key alone is not marked, since its text would be read again for it.
pub fn first_again(doc: &[u8], keys: &[u32]) -> Option<usize>
    requires { Placed doc.now keys.now (slice_index keys.now 0) }
    ensures { Told doc.now keys.now result }
{
    let n = log_word(keys, NOTED);
    match n {
        0..2 => None,
        2..=FEW => among::<FEW>(doc, keys, n),
        ..=SOME => among::<SOME>(doc, keys, n),
        ..=MANY => among::<MANY>(doc, keys, n),
        _ => among::<MOST>(doc, keys, n),
    }
}
