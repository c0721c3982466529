// The keys that are cut and short, copied into a window of their own: whether one has the text of another there, or of a key that stands whole.
// Stays (point 5): the rooms of the window and its count go as parameters, since `distinct` takes them so. A struct of them would be taken apart again for each call.
// Stays (point 6): the texts, their places and the chains are arrays of fixed size, since no heap is a rule here.
ghost use Rattle.std.specs.Prelude.{◌≡◌, ◌≤◌, length};
ghost use Rattle.language.specs.Lent.{lent};
ghost use Rattle.distinct.specs.Names.{Held};
ghost use Rattle.distinct.specs.Window.{Leads, ClashLooked, ClashTold};
ghost use Rattle.distinct.specs.Windows.{Open, Room};
ghost use Rattle.cutkeys.specs.Content.{keys_of, wholes_of, shorts_of, whole_from, short_from, IsKey, IsWhole, RunAt, ShortTold, CountTold, InsideTold, WindowTold};

use super::after::{by_ranks, chained_behind};
use super::keys::{UNKNOWN, first_whole, key_at, size_of};
use distinct::{Taken, chained_all};
use repeats::TooLong;
use views::{Reach, View, deeper};
use wide::text_of;

// A longer text is not copied.
const LONGEST: usize = 1024;

// There is room for so many keys and so many bytes of their texts: the stored form of the longest document, as deep as may be, has about so many cuts.
const MOST: usize = 640;

const ROOM: usize = 24576;

// A key that is cut and short: its place, the bytes of its text, and the place of the key behind it, and where that one stands, as in `Named`.
#[derive(Clone, Copy)]
pub struct Short {
    pub place: usize,
    pub bytes: usize,
    pub next: usize,
    pub reach: Reach,
}

// The first such key from a place on; where the one there stands is given.
#[tactic(auto, using(crate::specs::Shorts::shorting))]
fn seek_short(v: View, from: usize, reach: Reach) -> Option<Short>
    requires { Open (keys_of v) from × RunAt v from reach }
    ensures { ShortTold v.entry from result }
{
    let mut p = from;
    let mut here = reach;
    while p < v.n {
        let k = key_at(v, p, here);
        if let Some(bytes) = short_bytes(v, p, k.text.is_some()) {
            return Some(Short {
                place: p,
                bytes,
                next: k.next,
                reach: k.reach,
            });
        }
        p = k.next;
        here = k.reach;
    }
    None
}

// The bytes of the text of a key that is cut and short.
#[tactic(auto, using(crate::specs::Shorts::counting))]
fn short_bytes(v: View, p: usize, whole: bool) -> Option<usize>
    requires { IsKey v p × IsWhole v p whole }
    ensures { CountTold v.entry p result }
{
    if whole {
        return None;
    }
    let n = size_of(v, p).bytes;
    if n <= LONGEST {
        return Some(n);
    }
    None
}

// Whether the key at p stands whole, as is given, or is in the window, which is over at `next`.
#[tactic(auto, using(crate::specs::Shorts::insides))]
pub fn is_told(v: View, p: usize, next: usize, whole: bool) -> bool
    requires { IsKey v p × IsWhole v p whole }
    ensures { InsideTold v.entry next p result }
{
    whole || p < next && size_of(v, p).bytes <= LONGEST
}

// The texts of those keys, as many as there is room for.
#[tactic(auto, using(crate::specs::Copies::copying))]
fn gather_short(v: View, room: &mut [u8], froms: &mut [u32], tos: &mut [u32]) -> Taken
    requires { Open (keys_of v) 0 × Room froms.old tos.old × (length room.old ≤ lent) }
    ensures { Leads (shorts_of v.entry) room.new froms.new tos.new (short_from v.entry 0) result.n result.next }
{
    let mut found = seek_short(v, 0, UNKNOWN);
    let mut n = 0;
    let mut x = 0;
    while let Some(k) = found {
        if n == froms.len() {
            return Taken { n, next: k.place };
        }
        if room.len() - x < k.bytes {
            return Taken { n, next: k.place };
        }
        let a = deeper(v.starts, v.d, k.place);
        let text = View {
            stored: v.stored,
            starts: &a,
            d: v.d + 1,
            n: k.bytes,
        };
        text_of(text, room, x);
        froms[n] = x as u32;
        x += k.bytes;
        tos[n] = x as u32;
        n += 1;
        found = seek_short(v, k.next, k.reach);
    }
    Taken { n, next: v.n }
}

// Whether two of the n keys in the room have one text, or one of them has that of a key that stands whole, from one on; by chains.
#[inline(never)]
fn by_chains(
    v: View,
    room: &[u8],
    froms: &[u32],
    tos: &[u32],
    n: usize,
    from: usize,
) -> Result<bool, TooLong>
    requires { Held room.now froms.now tos.now n × (n ≤ MOST) × Open (wholes_of v) from }
    ensures { ClashLooked (wholes_of v.entry) room.now froms.now tos.now n from result }
{
    let mut heads = [0u16; 4096];
    let mut links = [0u16; MOST];
    if chained_all(room, froms, tos, &mut heads, &mut links, n)? {
        return Ok(true);
    }
    chained_behind(v, room, froms, tos, &heads, &links, n, from)
}

// The same by the order of texts.
#[inline(never)]
fn by_order(v: View, room: &[u8], froms: &[u32], tos: &[u32], n: usize, from: usize) -> bool
    requires { Held room.now froms.now tos.now n × (n ≤ MOST) × Open (wholes_of v) from }
    ensures { ClashTold (wholes_of v.entry) room.now froms.now tos.now n from result }
{
    let mut order = [0u16; MOST];
    by_ranks(v, room, froms, tos, &mut order, n, from)
}

// The same from the first key on, by chains, or where one is too long in the other way.
#[tactic(auto, using(crate::specs::CutsWindow::clashes, distinct::specs::Windows::clashing))]
fn clashes(v: View, room: &[u8], froms: &[u32], tos: &[u32], n: usize) -> bool
    requires { Held room.now froms.now tos.now n × (n ≤ MOST) × Open (keys_of v) 0 }
    ensures { ClashTold (wholes_of v.entry) room.now froms.now tos.now n (whole_from v.entry 0) result }
{
    let p = first_whole(v);
    match by_chains(v, room, froms, tos, n, p) {
        Ok(b) => b,
        Err(_) => by_order(v, room, froms, tos, n, p),
    }
}

// The window: whether a key in it has the text of another there or of one that stands whole, or the place where it is over. It is put into no caller, whose frame would hold the rooms.
#[tactic(auto, using(crate::specs::CutsWindow::windowed))]
#[inline(never)]
fn copied(v: View) -> Option<usize>
    requires { Open (keys_of v) 0 }
    ensures { WindowTold v.entry result }
{
    let mut room = [0u8; ROOM];
    let mut froms = [0u32; MOST];
    let mut tos = [0u32; MOST];
    let w = gather_short(v, &mut room, &mut froms, &mut tos);
    if clashes(v, &room, &froms, &tos, w.n) {
        return None;
    }
    Some(w.next)
}

// The same if there is such a key; only then rooms are cleared.
#[tactic(auto, using(crate::specs::CutsWindow::onward))]
pub fn cut_window(v: View) -> Option<usize>
    requires { Open (keys_of v) 0 }
    ensures { WindowTold v.entry result }
{
    match seek_short(v, 0, UNKNOWN) {
        Some(_) => copied(v),
        None => Some(0),
    }
}
