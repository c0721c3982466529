// What is found of repeated keys; the words of chains and of the order of names.
#![tactic(auto)]

ghost use Rattle.std.specs.Prelude.{◌≡◌, ◌+◌, ◌*◌, ◌%◌, ◌≤◌, ◌<◌, length, get_or};
ghost use Rattle.repeats.specs.Numbering.{spread};
ghost use Rattle.repeats.specs.Sorted.{Inserted};

// A look through a chain was broken off: the chain is too long.
#[derive(Clone, Copy, PartialEq, Eq, Debug)]
pub struct TooLong;

// A word of the chains or of the order, as a number of keys.
pub fn word(words: &[u16], x: usize) -> usize
    requires { x < length words.now }
    ensures { (result ≡ get_or words.now x 0) × (result < 65536) }
{
    words[x] as usize
}

// A byte stirred into the number that picks a chain.
pub fn stirred(h: usize, b: u8) -> usize
    requires { h < 4294967296 }
    ensures { result ≡ (31 * h + b) % 4294967296 }
{
    (31 * h + b as usize) % 4294967296
}

// The chain that a key belongs to.
pub fn chain_of(stir: usize) -> usize
    requires { stir < 4294967296 }
    ensures { result ≡ spread stir }
{
    (stir + stir / 1048576) % 4096
}

// The i-th key put behind the first p of those before it.
pub fn insert(order: &mut [u16], p: usize, i: usize)
    requires { (p ≤ i) × (i < length order.old) × (i < 65536) }
    ensures { Inserted order.old order.new p i }
{
    order.copy_within(p..i, p + 1);
    order[p] = i as u16;
}
