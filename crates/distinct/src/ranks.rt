// Keys in the order of their texts, each found by halving: so no keys, however chosen, take a number of comparisons that grows with the square of theirs.
// Stays (point 5): the rooms of keys go as parameters, since chains and order are written while texts and places are read: a struct that holds `&mut` slices would need a clause in every contract that it still holds the same ones.
// Stays (point 6): n is how many words of a room are keys so far, and the rooms are longer (no heap is a rule here): a slice cut to n would have to be cut anew for each key.
ghost use Rattle.std.specs.Prelude.{◌≤◌, length};
ghost use Rattle.std.proofs.Math.Seq.{slice};
ghost use Rattle.repeats.specs.Order.{Ordered};
ghost use Rattle.distinct.specs.Names.{Part, Held, Numbered, spelt};
ghost use Rattle.distinct.specs.Ranks.{InOrder, Finds, Joining, Joined, Ranged};

use super::place_at;
use repeats::{insert, word};
use std::cmp::Ordering;

// How the bytes from a to e of one text stand to those from b to f of another.
// Stays (point 4): tried; by `text[a..e].cmp(&words[b..f])` loading a megabyte of short keys of one chain takes 1.53 of the instructions of the form of before, by such a loop 0.97 (all as plain Rust).
#[tactic(auto, using(crate::specs::Ranks::agreeing))]
fn texts_order(text: &[u8], a: usize, e: usize, words: &[u8], b: usize, f: usize) -> Ordering
    requires { Part text.now a e × Part words.now b f }
    ensures { Ordered (slice a e text.now) (slice b f words.now) result }
{
    let n = e - a;
    let m = f - b;
    for i in 0..n {
        if i == m {
            return Ordering::Greater;
        }
        if text[a + i] != words[b + i] {
            return text[a + i].cmp(&words[b + i]);
        }
    }
    if n < m {
        Ordering::Less
    } else {
        Ordering::Equal
    }
}

// How the text of the bytes from b to f of some words stands to that of the k-th key.
fn order_to(
    words: &[u8],
    b: usize,
    f: usize,
    text: &[u8],
    froms: &[u32],
    tos: &[u32],
    k: usize,
) -> Ordering
    requires { Part words.now b f × Numbered text.now froms.now tos.now k }
    ensures { Ordered (slice b f words.now) (spelt text.now froms.now tos.now k) result }
{
    texts_order(words, b, f, text, place_at(froms, k), place_at(tos, k))
}

// Where the text of the bytes from b to f of some words stands among the n keys in order.
pub fn in_order(
    text: &[u8],
    froms: &[u32],
    tos: &[u32],
    order: &[u16],
    n: usize,
    words: &[u8],
    b: usize,
    f: usize,
) -> Result<usize, usize>
    requires { InOrder text.now froms.now tos.now order.now n × Part words.now b f }
    ensures { Finds text.now froms.now tos.now order.now n (slice b f words.now) result }
{
    // Stays (point 6): `binary_search_by` calls its closure at any word, and a text is compared only with that of a key that stands in the rooms (`order_to`'s `Numbered`).
    let mut lo = 0;
    let mut hi = n;
    while lo < hi {
        let mid = (lo + hi) / 2;
        let k = word(order, mid);
        match order_to(words, b, f, text, froms, tos, k) {
            Ordering::Less => {
                hi = mid;
            }
            Ordering::Equal => {
                return Ok(k);
            }
            Ordering::Greater => {
                lo = mid + 1;
            }
        }
    }
    Err(lo)
}

// Whether the i-th of n keys has the text of an earlier one; if not it joins them.
fn ranked(text: &[u8], froms: &[u32], tos: &[u32], order: &mut [u16], n: usize, i: usize) -> bool
    requires { Joining text.now froms.now tos.now order.old n i }
    ensures { Joined text.now froms.now tos.now order.new i result }
{
    let a = place_at(froms, i);
    let e = place_at(tos, i);
    match in_order(text, froms, tos, order, i, text, a, e) {
        Ok(_) => true,
        Err(p) => {
            insert(order, p, i);
            false
        }
    }
}

// Whether one of n keys has the text of an earlier one; if none has, all stand in order.
pub fn ranked_all(text: &[u8], froms: &[u32], tos: &[u32], order: &mut [u16], n: usize) -> bool
    requires { Held text.now froms.now tos.now n × (n ≤ length order.old) }
    ensures { Ranged text.now froms.now tos.now order.new n result }
{
    for i in 0..n {
        if ranked(text, froms, tos, order, n, i) {
            return true;
        }
    }
    false
}
