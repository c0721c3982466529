// Keys by number, each a text between two places of a room, told apart in chains and in the order of their texts.
#![tactic(auto)]

ghost use Rattle.std.specs.Prelude.{◌≡◌, ◌<◌, ℕ, List, length, get_or};
ghost use Rattle.std.proofs.Math.Seq.{slice};
ghost use Rattle.exact.specs.Tells.{Tells};
ghost use Rattle.distinct.specs.Names.{Part, Numbered, spelt};
ghost use Rattle.distinct.specs.Roads.{Road};
ghost use Rattle.distinct.specs.Shown.{Shown};

mod chains;
mod once;
mod ranks;
mod windows;

pub use chains::{chained, chained_all, in_chains};
pub use once::apart;
pub use ranks::{in_order, ranked_all};

// Where the text of a key stands, and where the key behind it does.
#[derive(Clone, Copy)]
pub struct Key {
    pub from: usize,
    pub to: usize,
    pub next: usize,
}

// Keys one behind another, each by its place, whose texts stand in one room.
pub trait Keys {
    // the keys before `stop`, with their texts in a room
    ghost road: { Self → List ℕ → ℕ → Road };

    // The key at r.
    fn key(&self, text: &[u8], stop: usize, r: usize) -> Key
        requires { (road self.now text.now stop).Good r }
        ensures { Shown (road self.now text.now stop) text.now r result };

    ghost stops: { (s : Self) (text : List ℕ) (stop : ℕ) → (road s text stop).stop ≡ stop };
}

// A window of n keys, and where the key behind them stands.
#[derive(Clone, Copy)]
pub struct Taken {
    pub n: usize,
    pub next: usize,
}

// The k-th place of those in a room.
pub fn place_at(places: &[u32], k: usize) -> usize
    requires { k < length places.now }
    ensures { result ≡ get_or places.now k 0 }
{
    places[k] as usize
}

// So many bytes are compared one at a time, more as slices.
const SHORT: usize = 16;

// Whether the bytes from a to e of one text are those from b to f of another.
// Stays (point 4): tried; most keys differ in their length or first byte, and by `text[a..e] == words[b..f]` the test of soundness takes 1.35 of the instructions of the form of before on small records, by this loop 1.13 (all as plain Rust).
#[tactic(auto, using(crate::specs::Same::comparing))]
pub fn same_text(text: &[u8], a: usize, e: usize, words: &[u8], b: usize, f: usize) -> bool
    requires { Part text.now a e × Part words.now b f }
    ensures { Tells (slice a e text.now ≡ slice b f words.now) result }
{
    let n = e - a;
    if f - b != n {
        return false;
    }
    if SHORT < n {
        return text[a..e] == words[b..f];
    }
    for i in 0..n {
        if text[a + i] != words[b + i] {
            return false;
        }
    }
    true
}

// Whether the k-th key has the text of the bytes from b to f of some words.
pub fn is_named(
    text: &[u8],
    froms: &[u32],
    tos: &[u32],
    k: usize,
    words: &[u8],
    b: usize,
    f: usize,
) -> bool
    requires { Numbered text.now froms.now tos.now k × Part words.now b f }
    ensures { Tells (slice b f words.now ≡ spelt text.now froms.now tos.now k) result }
{
    same_text(words, b, f, text, place_at(froms, k), place_at(tos, k))
}
