// A sieve of keys, each an object's row and a hash: whatever key comes twice has its bit set in the second of two runs of bits. Each depth has a list of the first keys of the object last met there, so that small objects set no bits; without lists every key has its bit.
// Stays (points 5, 6): the sieve and its lists lie in one lent room of words, since there is no heap, and go with depth and hash as parameters. A struct that holds the `&mut` slices would need a clause in every contract that it still holds the same ones.
#![tactic(auto)]

ghost use Rattle.std.specs.Prelude.{◌≡◌, ◌+◌, ◌/◌, ◌≤◌, ◌<◌, length, get_or};
ghost use Rattle.exact.specs.Tells.{Tells};
ghost use Rattle.sieve.specs.Bits.{On, Sets};
ghost use Rattle.sieve.specs.Plain.{Listless};
ghost use Rattle.sieve.specs.Sieve.{large, lists, broken, class_of, list_at, Flags, Steps};
ghost use Rattle.sieve.specs.Shown.{NearBelow, Owning, Owned, Begun};

// The log of keys stands before the sieve in one room.
pub const LOG: usize = 6564;

// Whether keys are sieved, or noted in the log; and how often they were sieved before.
pub const MODE: usize = LOG;

pub const ROUND: usize = LOG + 1;

// How many keys were found again.
pub const HITS: usize = LOG + 2;

// All objects met have lower rows.
pub const TOP: usize = LOG + 3;

// 1 if an object was lost, 2 if there are no lists.
// Stays (point 1), with MODE and ROUND: a number in a word of the room that the caller lends (fixed memory), which Sieved in specs/Sieve.antt names.
pub const BROKEN: usize = LOG + 4;

const BITS: usize = 2;

// The lists of the depths: the object's row and one more, how many keys, and their hashes.
pub const LISTS: usize = LOG + 8;

const DEPTHS: usize = 34;

const KEYS: usize = 16;

// The words of a run of bits.
const WORDS: usize = 4096;

// The runs of bits: seen, and found again; and the filter of keys to look at.
pub const SEEN: usize = LISTS + DEPTHS * LIST;

pub const AGAIN: usize = SEEN + WORDS;

pub const FILTER: usize = AGAIN + WORDS;

pub const LARGE: usize = FILTER + WORDS;

// The list of a depth takes so many words.
const LIST: usize = KEYS + 2;

// A word of the room, as a number.
pub fn log_word(keys: &[u32], i: usize) -> usize
    requires { i < length keys.now }
    ensures { (result ≡ get_or keys.now i 0) × (result < 4294967296) }
{
    keys[i] as usize
}

// The class of a hash: its bit.
pub fn class_of(h: usize) -> usize
    requires { h < 4294967296 }
    ensures { result ≡ class_of h }
{
    (h + h / 32768) % 131072
}

// Whether a bit is set in the run that begins at a word.
#[tactic(auto, using(crate::specs::Bits::bit_told))]
pub fn bit(keys: &[u32], base: usize, c: usize) -> bool
    requires { (base + c / 32 < length keys.now) × (base < 4294967296) }
    ensures { Tells (On keys.now base c) result }
{
    (keys[base + c / 32] >> (c % 32)) % 2 == 1
}

// Sets it.
#[tactic(auto, using(crate::specs::Bits::sets_bit))]
pub fn set_bit(keys: &mut [u32], base: usize, c: usize)
    requires { (base + c / 32 < length keys.old) × (base < 4294967296) }
    ensures { Sets keys.old base c keys.new }
{
    keys[base + c / 32] |= 1u32 << (c % 32);
}

// A key found again.
#[tactic(auto, using(crate::specs::Shown::flagging))]
fn flag(keys: &mut [u32], c: usize)
    requires { (length keys.old ≡ large) × (c < 131072) }
    ensures { Flags keys.old c keys.new }
{
    set_bit(keys, AGAIN, c);
    let n = log_word(keys, HITS);
    if n < LARGE {
        keys[HITS] = (n + 1) as u32;
    }
}

// Where the list of a depth begins.
fn list_at(d: usize) -> usize
    requires { d < lists }
    ensures { result ≡ list_at d }
{
    LISTS + LIST * d
}

// Whether a hash is among the first n of a list.
fn near(keys: &[u32], d: usize, n: usize, h: usize) -> bool
    requires { (length keys.now ≡ large) × (d < lists) × (n ≤ 16) }
    ensures { Tells (NearBelow keys.now d n h) result }
{
    let at = list_at(d) + 2;
    keys[at..at + n].iter().any(|key| *key as usize == h)
}

// A key more of the object whose list has n: found again, or put into the list, or, where that is full, its bit is set.
#[tactic(auto, using(crate::specs::Shown::owning))]
fn own(keys: &mut [u32], d: usize, n: usize, h: usize)
    requires { Owning keys.old d n h }
    ensures { Owned keys.old d h keys.new }
{
    let c = class_of(h);
    if near(keys, d, n, h) {
        flag(keys, c);
    } else if bit(keys, SEEN, c) {
        flag(keys, c);
    } else if n < KEYS {
        let at = list_at(d);
        keys[at + 2 + n] = h as u32;
        keys[at + 1] = (n + 1) as u32;
    } else {
        set_bit(keys, SEEN, c);
    }
}

// The first key of an object.
#[tactic(auto, using(crate::specs::Shown::beginning))]
fn first(keys: &mut [u32], d: usize, object: usize, h: usize)
    requires { (length keys.old ≡ large) × (d < lists) × (object + 1 < 4294967296) × (h < 4294967296) }
    ensures { Begun keys.old object h keys.new }
{
    let at = list_at(d);
    let next = (object + 1) as u32;
    keys[TOP] = next;
    keys[at] = next;
    keys[at + 1] = 1;
    keys[at + 2] = h as u32;
}

// A key of an object that is not known: from then on every key is found again. Where all keys of a document come no object is lost, but that need not be shown.
#[tactic(auto, using(crate::specs::Shown::losing))]
fn lost(keys: &mut [u32], object: usize, h: usize)
    requires { (length keys.old ≡ large) × (h < 4294967296) }
    ensures { Steps keys.old object h keys.new }
{
    keys[BROKEN] = 1;
    flag(keys, class_of(h));
}

// A key of an object that was met before, which is that of the list.
#[tactic(auto, using(crate::specs::Shown::placing))]
fn known(keys: &mut [u32], d: usize, object: usize, h: usize)
    requires { (length keys.old ≡ large) × (d < lists) × (object + 1 < 4294967296) × (h < 4294967296) × (get_or keys.old broken 0 ≡ 0) }
    ensures { Steps keys.old object h keys.new }
{
    let at = list_at(d);
    let n = log_word(keys, at + 1);
    if n <= KEYS && log_word(keys, at) == object + 1 {
        own(keys, d, n, h);
    } else {
        lost(keys, object, h);
    }
}

// A key of an object at a depth, where none was lost.
#[tactic(auto, using(crate::specs::Shown::placing))]
fn placed(keys: &mut [u32], d: usize, object: usize, h: usize)
    requires { (length keys.old ≡ large) × (d < lists) × (object + 1 < 4294967296) × (h < 4294967296) × (get_or keys.old broken 0 ≡ 0) }
    ensures { Steps keys.old object h keys.new }
{
    if log_word(keys, TOP) <= object {
        first(keys, d, object, h);
    } else {
        known(keys, d, object, h);
    }
}

// A key where there are no lists: found again, or its bit is set.
#[tactic(auto, using(crate::specs::Plain::plaining))]
fn plain(keys: &mut [u32], object: usize, h: usize)
    requires { Listless keys.old h }
    ensures { Steps keys.old object h keys.new }
{
    let c = class_of(h);
    if bit(keys, SEEN, c) {
        flag(keys, c);
    } else {
        set_bit(keys, SEEN, c);
    }
}

// A key of an object at a depth, by its hash.
#[tactic(auto, using(crate::specs::Shown::placing))]
pub fn sieve(keys: &mut [u32], d: usize, object: usize, h: usize)
    requires { (length keys.old ≡ large) × (object < 4294967296) × (h < 4294967296) }
    ensures { Steps keys.old object h keys.new }
{
    let mode = log_word(keys, BROKEN);
    if mode == BITS {
        plain(keys, object, h);
    } else if d < DEPTHS && object < 4294967295 && mode == 0 {
        placed(keys, d, object, h);
    } else {
        lost(keys, object, h);
    }
}
