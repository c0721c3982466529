// Keys in chains, each sought in its own.
// Stays (point 5): the rooms of keys go as parameters, since chains and order are written while texts and places are read: a struct that holds `&mut` slices would need a clause in every contract that it still holds the same ones.
// Stays (point 6): n is how many words of a room are keys so far, and the rooms are longer (no heap is a rule here): a slice cut to n would have to be cut anew for each key.
ghost use Rattle.std.specs.Prelude.{◌≡◌, ◌<◌};
ghost use Rattle.std.proofs.Math.Seq.{slice};
ghost use Rattle.repeats.specs.Numbering.{stir, chain_of};
ghost use Rattle.distinct.specs.Names.{Part};
ghost use Rattle.distinct.specs.Chains.{Walkable, Looked, InChains, SitsTold, Chaining, Chained, Starting, Linked};

use super::{is_named, place_at};
use repeats::{TooLong, chain_of, stirred, word};

// A chain is looked through so far.
const STEPS: usize = 16;

// The number that picks the chain of the bytes from a to e.
fn stir(text: &[u8], a: usize, e: usize) -> usize
    requires { Part text.now a e }
    ensures { (result ≡ stir 0 (slice a e text.now)) × (result < 4294967296) }
{
    let mut h = 0;
    for i in a..e {
        h = stirred(h, text[i]);
    }
    h
}

// The chain of the bytes from a to e.
fn chain_at(text: &[u8], a: usize, e: usize) -> usize
    requires { Part text.now a e }
    ensures { result ≡ chain_of 0 (slice a e text.now) }
{
    chain_of(stir(text, a, e))
}

// The key in the chain from `head`, of n, that has the text of the bytes from b to f of some words. A link leads to an earlier key, so the look ends.
fn in_chain(
    text: &[u8],
    froms: &[u32],
    tos: &[u32],
    links: &[u16],
    words: &[u8],
    b: usize,
    f: usize,
    head: usize,
    n: usize,
) -> Result<Option<usize>, TooLong>
    requires { Walkable text.now froms.now tos.now links.now words.now b f head n }
    ensures { Looked text.now froms.now tos.now links.now (slice b f words.now) head n result }
{
    let mut h = head;
    let mut steps = 0;
    while 0 < h {
        if steps == STEPS {
            return Err(TooLong);
        }
        let k = h - 1;
        if is_named(text, froms, tos, k, words, b, f) {
            return Ok(Some(k));
        }
        h = word(links, k);
        steps += 1;
    }
    Ok(None)
}

// The one of the n keys in the chains that has the text of the bytes from b to f of some words.
pub fn in_chains(
    text: &[u8],
    froms: &[u32],
    tos: &[u32],
    heads: &[u16],
    links: &[u16],
    n: usize,
    words: &[u8],
    b: usize,
    f: usize,
) -> Result<Option<usize>, TooLong>
    requires { InChains text.now froms.now tos.now heads.now links.now n × Part words.now b f }
    ensures { SitsTold text.now froms.now tos.now n (slice b f words.now) result }
{
    let head = word(heads, chain_at(words, b, f));
    in_chain(text, froms, tos, links, words, b, f, head, n)
}

// The key before the i-th of n that has its text; it becomes the head of its chain.
pub fn chained(
    text: &[u8],
    froms: &[u32],
    tos: &[u32],
    heads: &mut [u16],
    links: &mut [u16],
    n: usize,
    i: usize,
) -> Result<Option<usize>, TooLong>
    requires { Chaining text.now froms.now tos.now heads.old links.old n i }
    ensures { Chained text.now froms.now tos.now heads.new links.new i result }
{
    let a = place_at(froms, i);
    let e = place_at(tos, i);
    let c = chain_at(text, a, e);
    let head = word(heads, c);
    let r = in_chain(text, froms, tos, links, text, a, e, head, i);
    links[i] = heads[c];
    heads[c] = (i + 1) as u16;
    r
}

// Whether one of n keys has the text of an earlier one, over chains with no key in them; if none has, all stand in them.
pub fn chained_all(
    text: &[u8],
    froms: &[u32],
    tos: &[u32],
    heads: &mut [u16],
    links: &mut [u16],
    n: usize,
) -> Result<bool, TooLong>
    requires { Starting text.now froms.now tos.now heads.old links.old n }
    ensures { Linked text.now froms.now tos.now heads.new links.new n result }
{
    for i in 0..n {
        if chained(text, froms, tos, heads, links, n, i)?.is_some() {
            return Ok(true);
        }
    }
    Ok(false)
}
