// A key of a content that is cut: where its text stands, if it stands there whole; and the first such key from a place on.
ghost use Rattle.std.specs.Prelude.{◌≡◌, ◌+◌, ◌≤◌, length};
ghost use Rattle.distinct.specs.Windows.{Open};
ghost use Rattle.views.specs.Contents.{all};
ghost use Rattle.cutkeys.specs.Keys.{Stands};
ghost use Rattle.cutkeys.specs.Whole.{Texts};
ghost use Rattle.cutkeys.specs.Runs.{Made, MadeAsked};
ghost use Rattle.cutkeys.specs.Near.{Paired};
ghost use Rattle.cutkeys.specs.Found.{Sized};
ghost use Rattle.cutkeys.specs.Content.{keys_of, whole_from, IsKey, RunAt, KeyTold, SeekTold};

use stored::WIDEST;
use uncut::{behind, is_field};
use views::{Reach, View, extent, place};
use wide::near;

// Where a text stands in the stored bytes.
#[derive(Clone, Copy, PartialEq, Eq, Debug)]
pub struct Text {
    pub from: usize,
    pub to: usize,
}

// Where a key stands if that is not known: with no bytes before the nearest cut.
pub const UNKNOWN: Reach = Reach { place: 0, left: 0 };

// A key: where its text stands, if it stands there whole, and the place of the key behind it and its value; and where that one stands, or `UNKNOWN`.
#[derive(Clone, Copy)]
pub struct Named {
    pub text: Option<Text>,
    pub next: usize,
    pub reach: Reach,
}

// A key that stands whole: its place, where its text stands, and the place of the key behind it, and where that one stands, as above.
#[derive(Clone, Copy)]
pub struct Found {
    pub place: usize,
    pub text: Text,
    pub next: usize,
    pub reach: Reach,
}

// Where a key's field ends and where its value's does, before a cut.
#[derive(Clone, Copy, PartialEq, Eq, Debug)]
pub struct Pair {
    pub end: usize,
    pub next: usize,
}

// The bytes of a field's content, and the place behind it.
#[derive(Clone, Copy, PartialEq, Eq, Debug)]
pub struct Size {
    pub bytes: usize,
    pub end: usize,
}

// The key's field at a place of bytes that are not cut, where the head of its value's is among them and no part's.
#[tactic(auto, using(crate::specs::Near::pairing))]
pub fn near_pair(s: &[u8], i: usize) -> Option<Pair>
    requires { (i ≤ length s.now) × (length s.now ≤ 65535) }
    ensures { Paired s.now i result }
{
    if is_field(s, i, s.len()) {
        let e = behind(s, i);
        if 3 <= s.len() - e && s[e] != 11 {
            return Some(Pair {
                end: e,
                next: behind(s, e),
            });
        }
    }
    None
}

// The field that stands at a place.
#[tactic(auto, using(crate::specs::Found::fielding))]
pub fn size_of(v: View, at: usize) -> Size
    requires { Stands (all v) v.n at }
    ensures { Sized (all v.entry) at result }
{
    match extent(v, at) {
        None => Size { bytes: 0, end: v.n },
        Some(f) => Size {
            bytes: f.bytes,
            end: f.end,
        },
    }
}

// Where the text of n bytes of the key at a place stands, if it stands there whole.
#[tactic(auto, using(crate::specs::Whole::naming))]
fn whole_text(v: View, at: usize, n: usize) -> Option<Text>
    requires { at + 3 + n ≤ v.n }
    ensures { Texts v.entry.starts.now v.entry.d at n result }
{
    if WIDEST < n {
        return None;
    }
    let a = place(v.starts, v.d, at + 2);
    let e = place(v.starts, v.d, at + 2 + n);
    if e == a + n {
        return Some(Text {
            from: a + 1,
            to: e + 1,
        });
    }
    None
}

// The key at a place, where it or its value's head is cut or has parts.
#[tactic(auto, using(crate::specs::Found::keying))]
fn cut_key_at(v: View, at: usize) -> Named
    requires { IsKey v at }
    ensures { KeyTold v.entry at result }
{
    let k = size_of(v, at);
    let next = size_of(v, k.end).end;
    let text = whole_text(v, at, k.bytes);
    Named {
        text,
        next,
        reach: UNKNOWN,
    }
}

// The key at a place that stands where r says, by the ends of its field and of its value's.
fn pair_key(at: usize, r: Reach, k: Pair) -> Named
    requires { MadeAsked at r.place r.left k.end k.next }
    ensures { Made at r.place r.left k.end k.next result }
{
    let text = Some(Text {
        from: r.place + 3,
        to: r.place + k.end,
    });
    let next = at + k.next;
    if k.next <= r.left {
        let reach = Reach {
            place: r.place + k.next,
            left: r.left - k.next,
        };
        return Named { text, next, reach };
    }
    Named {
        text,
        next,
        reach: UNKNOWN,
    }
}

// The key at a place of which it is not known where it stands.
#[tactic(auto, using(crate::specs::Found::running))]
fn far_key_at(v: View, at: usize) -> Named
    requires { IsKey v at }
    ensures { KeyTold v.entry at result }
{
    let r = near(v, at);
    match near_pair(&v.stored[r.place..r.place + r.left], 0) {
        Some(k) => pair_key(at, r, k),
        None => cut_key_at(v, at),
    }
}

// The key at a place that stands where `reach` says: keys of one run of bytes are told without asking where it begins.
#[tactic(auto, using(crate::specs::Found::running))]
pub fn key_at(v: View, at: usize, reach: Reach) -> Named
    requires { IsKey v at × RunAt v at reach }
    ensures { KeyTold v.entry at result }
{
    match near_pair(&v.stored[reach.place..reach.place + reach.left], 0) {
        Some(k) => pair_key(at, reach, k),
        None => far_key_at(v, at),
    }
}

// The first key from a place on that stands whole; where the one at that place stands is given, as above.
#[tactic(auto, using(crate::specs::Found::seeking))]
pub fn seek(v: View, from: usize, reach: Reach) -> Option<Found>
    requires { Open (keys_of v) from × RunAt v from reach }
    ensures { SeekTold v.entry from result }
{
    let mut p = from;
    let mut here = reach;
    while p < v.n {
        let k = key_at(v, p, here);
        if let Some(text) = k.text {
            return Some(Found {
                place: p,
                text,
                next: k.next,
                reach: k.reach,
            });
        }
        p = k.next;
        here = k.reach;
    }
    None
}

// The place of the first key that stands whole, or where the content ends.
pub fn first_whole(v: View) -> usize
    requires { Open (keys_of v) 0 }
    ensures { result ≡ whole_from v.entry 0 }
{
    match seek(v, 0, UNKNOWN) {
        Some(k) => k.place,
        None => v.n,
    }
}
