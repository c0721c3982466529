// The keys of a content that is cut whose texts stand whole in the stored bytes, a window of them at a time, as in `windows`.
// Stays (point 2), as in `after`: tried as a third kind of `distinct::Keys`; a key that is asked for by its place alone is looked for anew, so that loading an object of 12,000 keys below 30 arrays takes 1.94 of the instructions, and one of 6,000 keys at the root 1.17.
// Stays (point 5): the rooms of a window go as parameters, as `distinct` takes them. A struct that holds the `&mut` slices would need a clause in every contract that it still holds the same ones.
// Stays (point 6): the places and the chains are arrays of fixed size, since no heap is a rule here.
ghost use Rattle.std.specs.Prelude.{◌≤◌, ◌<◌, length, IfOk};
ghost use Rattle.distinct.specs.Roads.{ApartTold};
ghost use Rattle.distinct.specs.Window.{Rooms};
ghost use Rattle.distinct.specs.Windows.{Open, Room, Gathered, Windowed};
ghost use Rattle.distinct.specs.Entering.{Enters};
ghost use Rattle.cutkeys.specs.Content.{keys_of, wholes_of, whole_from};

use super::after::{by_ranks, chained_behind};
use super::keys::{UNKNOWN, first_whole, seek};
use distinct::{Taken, chained};
use repeats::TooLong;
use views::View;

// Rooms are cleared first, so few keys and some have smaller ones. An object of more keys than the largest room takes is passed once for each window.
const FEW: usize = 512;

const SOME: usize = 2048;

const MOST: usize = 5120;

// The places of the texts of the keys from `from` on, as many as there is room for.
#[tactic(auto, using(crate::proofs::WholeLaws::finding, distinct::specs::Windows::gathering))]
fn gather(v: View, froms: &mut [u32], tos: &mut [u32], from: usize) -> Taken
    requires { Open (wholes_of v) from × Room froms.old tos.old }
    ensures { Gathered (wholes_of v.entry) v.entry.stored.now froms.new tos.new from result }
{
    let mut found = seek(v, from, UNKNOWN);
    let mut n = 0;
    while let Some(k) = found {
        if n == froms.len() {
            return Taken { n, next: k.place };
        }
        froms[n] = k.text.from as u32;
        tos[n] = k.text.to as u32;
        n += 1;
        found = seek(v, k.next, k.reach);
    }
    Taken { n, next: v.n }
}

// The same, and each takes its place in the chains as it is passed: places are worked out while texts are compared. None if two of them have one text.
#[tactic(auto, using(crate::proofs::WholeLaws::finding))]
fn enter(
    v: View,
    froms: &mut [u32],
    tos: &mut [u32],
    heads: &mut [u16],
    links: &mut [u16],
    from: usize,
) -> Result<Option<Taken>, TooLong>
    requires { Open (wholes_of v) from × Rooms froms.old tos.old heads.old links.old }
    ensures { Enters (wholes_of v.entry) v.entry.stored.now froms.new tos.new heads.new links.new from result }
{
    let mut found = seek(v, from, UNKNOWN);
    let mut n = 0;
    while let Some(k) = found {
        if n == froms.len() {
            return Ok(Some(Taken { n, next: k.place }));
        }
        froms[n] = k.text.from as u32;
        tos[n] = k.text.to as u32;
        if chained(v.stored, froms, tos, heads, links, n + 1, n)?.is_some() {
            return Ok(None);
        }
        n += 1;
        found = seek(v, k.next, k.reach);
    }
    Ok(Some(Taken { n, next: v.n }))
}

// The window from a place on, by the order of texts.
#[tactic(auto, using(distinct::specs::Windows::windowing))]
fn ranked_window(
    v: View,
    froms: &mut [u32],
    tos: &mut [u32],
    order: &mut [u16],
    from: usize,
) -> Option<usize>
    requires { Open (wholes_of v) from × (from < v.n) × Room froms.old tos.old × (length froms.old ≤ length order.old) }
    ensures { Windowed (wholes_of v.entry) from result }
{
    let w = gather(v, froms, tos, from);
    if by_ranks(v, v.stored, froms, tos, order, w.n, w.next) {
        return None;
    }
    Some(w.next)
}

// The same by chains, over rooms with nothing in them.
fn chained_window(
    v: View,
    froms: &mut [u32],
    tos: &mut [u32],
    heads: &mut [u16],
    links: &mut [u16],
    from: usize,
) -> Result<Option<usize>, TooLong>
    requires { Open (wholes_of v) from × (from < v.n) × Rooms froms.old tos.old heads.old links.old }
    ensures { IfOk result (Windowed (wholes_of v.entry) from) }
{
    match enter(v, froms, tos, heads, links, from)? {
        None => Ok(None),
        Some(w) => {
            if chained_behind(v, v.stored, froms, tos, heads, links, w.n, w.next)? {
                Ok(None)
            } else {
                Ok(Some(w.next))
            }
        }
    }
}

// The same in the one way, or where a chain is too long in the other.
fn window(
    v: View,
    froms: &mut [u32],
    tos: &mut [u32],
    heads: &mut [u16],
    links: &mut [u16],
    from: usize,
) -> Option<usize>
    requires { Open (wholes_of v) from × (from < v.n) × Rooms froms.old tos.old heads.old links.old }
    ensures { Windowed (wholes_of v.entry) from result }
{
    match chained_window(v, froms, tos, heads, links, from) {
        Ok(w) => w,
        Err(_) => ranked_window(v, froms, tos, links, from),
    }
}

// The same in rooms for N keys. It is put into no caller, whose frame would hold the rooms.
#[inline(never)]
fn window_of<const N: usize>(v: View, from: usize) -> Option<usize>
    requires { Open (wholes_of v) from × (from < v.n) × (0 < N) × (N ≤ 8192) }
    ensures { Windowed (wholes_of v.entry) from result }
{
    let mut froms = [0u32; N];
    let mut tos = [0u32; N];
    let mut heads = [0u16; 4096];
    let mut links = [0u16; N];
    window(v, &mut froms, &mut tos, &mut heads, &mut links, from)
}

// The same in the smallest rooms for n keys.
fn some_window(v: View, from: usize, n: usize) -> Option<usize>
    requires { Open (wholes_of v) from × (from < v.n) }
    ensures { Windowed (wholes_of v.entry) from result }
{
    match n {
        ..=FEW => window_of::<FEW>(v, from),
        ..=SOME => window_of::<SOME>(v, from),
        _ => window_of::<MOST>(v, from),
    }
}

// Whether no two keys that stand whole have one text; n says how many keys there are, and picks the rooms.
#[tactic(auto, using(crate::proofs::WholeLaws::windows_first, crate::proofs::WholeLaws::window_falls, distinct::specs::Windows::onwards))]
pub fn windows(v: View, n: usize) -> bool
    requires { Open (keys_of v) 0 }
    ensures { ApartTold (wholes_of v.entry) (whole_from v.entry 0) result }
{
    let mut p = first_whole(v);
    while p < v.n {
        match some_window(v, p, n) {
            None => return false,
            Some(next) => p = next,
        }
    }
    true
}
