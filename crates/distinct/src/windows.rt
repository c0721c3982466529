// Keys a window of them at a time: whether one in the window has the text of another, or one behind it has that of one in it.
// Stays (point 5): the rooms of keys go as parameters, since chains and order are written while texts and places are read: a struct that holds `&mut` slices would need a clause in every contract that it still holds the same ones.
// Stays (point 6): n picks the rooms, or says how many of their words are keys; the rooms are longer (no heap is a rule here).
ghost use Rattle.std.specs.Prelude.{◌≤◌, ◌<◌, length, IfOk};
ghost use Rattle.distinct.specs.Names.{Held};
ghost use Rattle.distinct.specs.Roads.{ApartTold};
ghost use Rattle.distinct.specs.Chains.{InChains};
ghost use Rattle.distinct.specs.Ranks.{InOrder};
ghost use Rattle.distinct.specs.Window.{TouchedLooked, TouchedTold, ClashTold, Rooms};
ghost use Rattle.distinct.specs.Windows.{Open, Room, Gathered, Windowed};
ghost use Rattle.distinct.specs.Entering.{Enters};

use super::chains::{chained, in_chains};
use super::ranks::{in_order, ranked_all};
use super::{Keys, Taken};
use repeats::TooLong;

// Rooms are cleared first, so few keys and some have smaller ones. An object of more keys than the largest room takes is passed once for each window.
const FEW: usize = 512;

const SOME: usize = 2048;

const MOST: usize = 4096;

// The places of the texts of the keys from `from` on, as many as there is room for.
fn gather<K: Keys>(
    keys: &K,
    text: &[u8],
    froms: &mut [u32],
    tos: &mut [u32],
    from: usize,
    stop: usize,
) -> Taken
    requires { Open (K.road keys.now text.now stop) from × Room froms.old tos.old }
    ensures { Gathered (K.road keys.now text.now stop) text.now froms.new tos.new from result }
{
    let mut r = from;
    let mut n = 0;
    while r < stop {
        if n == froms.len() {
            return Taken { n, next: r };
        }
        let k = keys.key(text, stop, r);
        froms[n] = k.from as u32;
        tos[n] = k.to as u32;
        n += 1;
        r = k.next;
    }
    Taken { n, next: r }
}

// The same, and each takes its place in the chains as it is passed: places are worked out while texts are compared. None if two of them have one text.
fn enter<K: Keys>(
    keys: &K,
    text: &[u8],
    froms: &mut [u32],
    tos: &mut [u32],
    heads: &mut [u16],
    links: &mut [u16],
    from: usize,
    stop: usize,
) -> Result<Option<Taken>, TooLong>
    requires { Open (K.road keys.now text.now stop) from × Rooms froms.old tos.old heads.old links.old }
    ensures { Enters (K.road keys.now text.now stop) text.now froms.new tos.new heads.new links.new from result }
{
    let mut r = from;
    let mut n = 0;
    while r < stop {
        if n == froms.len() {
            return Ok(Some(Taken { n, next: r }));
        }
        let k = keys.key(text, stop, r);
        froms[n] = k.from as u32;
        tos[n] = k.to as u32;
        if chained(text, froms, tos, heads, links, n + 1, n)?.is_some() {
            return Ok(None);
        }
        n += 1;
        r = k.next;
    }
    Ok(Some(Taken { n, next: r }))
}

// Whether a key from `from` on has the text of one of the n in the chains.
fn chained_behind<K: Keys>(
    keys: &K,
    text: &[u8],
    froms: &[u32],
    tos: &[u32],
    heads: &[u16],
    links: &[u16],
    n: usize,
    from: usize,
    stop: usize,
) -> Result<bool, TooLong>
    requires { InChains text.now froms.now tos.now heads.now links.now n × Open (K.road keys.now text.now stop) from }
    ensures { TouchedLooked (K.road keys.now text.now stop) text.now froms.now tos.now n from result }
{
    let mut r = from;
    while r < stop {
        let k = keys.key(text, stop, r);
        if in_chains(text, froms, tos, heads, links, n, text, k.from, k.to)?.is_some() {
            return Ok(true);
        }
        r = k.next;
    }
    Ok(false)
}

// The same of the n in order.
fn ranked_behind<K: Keys>(
    keys: &K,
    text: &[u8],
    froms: &[u32],
    tos: &[u32],
    order: &[u16],
    n: usize,
    from: usize,
    stop: usize,
) -> bool
    requires { InOrder text.now froms.now tos.now order.now n × Open (K.road keys.now text.now stop) from }
    ensures { TouchedTold (K.road keys.now text.now stop) text.now froms.now tos.now n from result }
{
    let mut r = from;
    while r < stop {
        let k = keys.key(text, stop, r);
        if in_order(text, froms, tos, order, n, text, k.from, k.to).is_ok() {
            return true;
        }
        r = k.next;
    }
    false
}

// Whether two keys have one text, of which one is in the window, by the order of their texts.
fn by_ranks<K: Keys>(
    keys: &K,
    text: &[u8],
    froms: &[u32],
    tos: &[u32],
    order: &mut [u16],
    n: usize,
    next: usize,
    stop: usize,
) -> bool
    requires { Held text.now froms.now tos.now n × (n ≤ length order.old) × Open (K.road keys.now text.now stop) next }
    ensures { ClashTold (K.road keys.now text.now stop) text.now froms.now tos.now n next result }
{
    ranked_all(text, froms, tos, order, n)
        || ranked_behind(keys, text, froms, tos, order, n, next, stop)
}

// The window from a place on, by the order of texts: where the walk goes on, if no two keys have one text of which one is in it.
fn ranked_window<K: Keys>(
    keys: &K,
    text: &[u8],
    froms: &mut [u32],
    tos: &mut [u32],
    order: &mut [u16],
    from: usize,
    stop: usize,
) -> Option<usize>
    requires { Open (K.road keys.now text.now stop) from × (from < stop) × Room froms.old tos.old × (length froms.old ≤ length order.old) }
    ensures { Windowed (K.road keys.now text.now stop) from result }
{
    let w = gather(keys, text, froms, tos, from, stop);
    if by_ranks(keys, text, froms, tos, order, w.n, w.next, stop) {
        None
    } else {
        Some(w.next)
    }
}

// The same by chains, over rooms with nothing in them.
fn chained_window<K: Keys>(
    keys: &K,
    text: &[u8],
    froms: &mut [u32],
    tos: &mut [u32],
    heads: &mut [u16],
    links: &mut [u16],
    from: usize,
    stop: usize,
) -> Result<Option<usize>, TooLong>
    requires { Open (K.road keys.now text.now stop) from × (from < stop) × Rooms froms.old tos.old heads.old links.old }
    ensures { IfOk result (Windowed (K.road keys.now text.now stop) from) }
{
    match enter(keys, text, froms, tos, heads, links, from, stop)? {
        None => Ok(None),
        Some(w) => {
            if chained_behind(keys, text, froms, tos, heads, links, w.n, w.next, stop)? {
                Ok(None)
            } else {
                Ok(Some(w.next))
            }
        }
    }
}

// The same in the one way, or where a chain is too long in the other.
fn window<K: Keys>(
    keys: &K,
    text: &[u8],
    froms: &mut [u32],
    tos: &mut [u32],
    heads: &mut [u16],
    links: &mut [u16],
    from: usize,
    stop: usize,
) -> Option<usize>
    requires { Open (K.road keys.now text.now stop) from × (from < stop) × Rooms froms.old tos.old heads.old links.old }
    ensures { Windowed (K.road keys.now text.now stop) from result }
{
    match chained_window(keys, text, froms, tos, heads, links, from, stop) {
        Ok(w) => w,
        Err(_) => ranked_window(keys, text, froms, tos, links, from, stop),
    }
}

// The same in rooms for N keys, which stand on the stack while it runs alone.
#[inline(never)]
fn window_in<K: Keys, const N: usize>(
    keys: &K,
    text: &[u8],
    from: usize,
    stop: usize,
) -> Option<usize>
    requires { Open (K.road keys.now text.now stop) from × (from < stop) × (0 < N) × (N ≤ 4096) }
    ensures { Windowed (K.road keys.now text.now stop) from result }
{
    let mut froms = [0u32; N];
    let mut tos = [0u32; N];
    let mut heads = [0u16; 4096];
    let mut links = [0u16; N];
    window(
        keys, text, &mut froms, &mut tos, &mut heads, &mut links, from, stop,
    )
}

// The same in the smallest rooms that n keys fit, or in the largest.
fn window_for<K: Keys>(keys: &K, text: &[u8], from: usize, stop: usize, n: usize) -> Option<usize>
    requires { Open (K.road keys.now text.now stop) from × (from < stop) }
    ensures { Windowed (K.road keys.now text.now stop) from result }
{
    match n {
        ..=FEW => window_in::<K, FEW>(keys, text, from, stop),
        ..=SOME => window_in::<K, SOME>(keys, text, from, stop),
        _ => window_in::<K, MOST>(keys, text, from, stop),
    }
}

// Whether no two keys from `from` up to `stop` have one text; n says how many they are, and picks the rooms.
pub fn windows<K: Keys>(keys: &K, text: &[u8], from: usize, stop: usize, n: usize) -> bool
    requires { Open (K.road keys.now text.now stop) from }
    ensures { ApartTold (K.road keys.now text.now stop) from result }
{
    let mut r = from;
    while r < stop {
        match window_for(keys, text, r, stop, n) {
            Some(next) => r = next,
            None => return false,
        }
    }
    true
}
