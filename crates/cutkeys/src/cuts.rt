// The keys that are cut: each that is in no window is held against all others.
ghost use Rattle.std.specs.Prelude.{◌≡◌, ◌+◌, ◌-◌, ◌≤◌, ◌<◌, length};
ghost use Rattle.std.proofs.Math.Seq.{slice};
ghost use Rattle.exact.specs.Tells.{Tells};
ghost use Rattle.distinct.specs.Names.{Part};
ghost use Rattle.distinct.specs.Windows.{Open};
ghost use Rattle.views.specs.Contents.{all, bytes_of};
ghost use Rattle.cutkeys.specs.Places.{text_at, beyond};
ghost use Rattle.cutkeys.specs.Alone.{AloneTold, OtherTold};
ghost use Rattle.cutkeys.specs.CutsEnds.{Tail, Differs};
ghost use Rattle.cutkeys.specs.CutsPast.{PastAsked, Passes};
ghost use Rattle.cutkeys.specs.CutsSought.{Another};
ghost use Rattle.cutkeys.specs.Content.{keys_of, whole_in, inside_in, IsKey, SkipFrom, Skips, Asking, Met};

use super::copies::{cut_window, is_told};
use super::keys::{UNKNOWN, key_at, near_pair, size_of};
use distinct::same_text;
use views::{View, byte_at, deeper, run};
use wide::near;

// So many last bytes of the text of a key that is cut are copied, so that others are told from it where they stand.
const LAST: usize = 64;

// The last m bytes of a content.
#[tactic(auto, using(crate::specs::CutsEnds::tailing))]
fn last_bytes(v: View, m: usize) -> [u8; LAST]
    requires { (m ≤ v.n) × (m ≤ LAST) }
    ensures { Tail (all v.entry) (v.entry.n - m) m result }
{
    let k = v.n - m;
    let mut room = [0u8; LAST];
    for i in 0..m {
        room[i] = byte_at(v.stored, v.starts, v.d, k + i);
    }
    room
}

// Whether the bytes from a to e are other than n, or end with others than the last ones.
// Stays (point 6), as in `past`, `skip` and `skip_from`: n counts the bytes of the text sought, of which `last` has no more than the end.
#[tactic(auto, using(crate::specs::CutsEnds::differing))]
fn differs(s: &[u8], a: usize, e: usize, last: &[u8], n: usize) -> bool
    requires { Part s.now a e × (length last.now ≤ n) }
    ensures { Differs (slice a e s.now) last.now (length last.now) n result }
{
    e - a != n || !same_text(s, e - last.len(), e, last, 0, last.len())
}

// The keys in bytes that are not cut, passed until one may have the text of n bytes that ends with the last ones.
#[tactic(auto, using(crate::specs::CutsPast::passing))]
fn past(s: &[u8], last: &[u8], n: usize) -> usize
    requires { PastAsked s.now last.now (length last.now) n }
    ensures { Passes s.now last.now (length last.now) n result }
{
    let mut i = 0;
    while i < s.len() {
        let Some(k) = near_pair(s, i) else {
            return i;
        };
        if !differs(s, i + 3, k.end, last, n) {
            return i;
        }
        i = k.next;
    }
    i
}

// The same in a content from a place on, up to the nearest cut.
#[tactic(auto, using(crate::specs::CutsPast::skipping))]
fn skip(v: View, q: usize, last: &[u8], n: usize) -> usize
    requires { SkipFrom v last.now n q }
    ensures { Skips v.entry last.now n q result }
{
    let r = near(v, q);
    let p = r.place;
    q + past(&v.stored[p..p + r.left], last, n)
}

// Whether two contents of as many bytes are the same.
#[tactic(auto, using(crate::specs::CutsSame::likening))]
fn same_bytes(a: View, b: View) -> bool
    requires { a.n ≡ b.n }
    ensures { Tells (bytes_of a.entry ≡ bytes_of b.entry) result }
{
    let mut i = 0;
    while i < a.n {
        let r = run(a.starts, a.d, i, a.n - i);
        let s = run(b.starts, b.d, i, r.left);
        let p = r.place;
        let q = s.place;
        let m = s.left;
        if !same_text(a.stored, p, p + m, b.stored, q, q + m) {
            return false;
        }
        i += m;
    }
    true
}

// Whether the key at q has the text that is the content a.
#[tactic(auto, using(crate::specs::CutsSame::owning))]
fn same_key(v: View, a: View, q: usize) -> bool
    requires { IsKey v q }
    ensures { Tells (bytes_of a.entry ≡ text_at (all v.entry) q) result }
{
    let k = size_of(v, q);
    if k.bytes != a.n {
        return false;
    }
    let s = deeper(v.starts, v.d, q);
    let text = View {
        stored: v.stored,
        starts: &s,
        d: v.d + 1,
        n: k.bytes,
    };
    same_bytes(a, text)
}

// Whether the key at q is another than that at p, and has that text.
#[tactic(auto, using(crate::specs::CutsSought::othering))]
fn same_other(v: View, a: View, p: usize, q: usize) -> bool
    requires { IsKey v q }
    ensures { Tells (Another (text_at (all v.entry)) p (bytes_of a.entry) q) result }
{
    q != p && same_key(v, a, q)
}

// The key behind that at q, and from there on passed as above.
#[tactic(auto, using(crate::specs::CutsSought::fromwards))]
fn skip_from(v: View, q: usize, last: &[u8], n: usize) -> usize
    requires { SkipFrom v last.now n q × (q < v.n) }
    ensures { Skips v.entry last.now n (beyond (all v.entry) q) result }
{
    let k = key_at(v, q, UNKNOWN);
    skip(v, k.next, last, n)
}

// Whether another key than that at p has its text, which is the content a and ends with the last bytes.
#[tactic(auto, using(crate::specs::CutsSought::soughts))]
fn sought(v: View, a: View, p: usize, last: &[u8]) -> bool
    requires { Asking v a last.now }
    ensures { Met v.entry p (bytes_of a.entry) result }
{
    let mut q = skip(v, 0, last, a.n);
    while q < v.n {
        if same_other(v, a, p, q) {
            return true;
        }
        q = skip_from(v, q, last, a.n);
    }
    false
}

// Whether another key has the text of the one at p.
#[tactic(auto, using(crate::specs::CutsSought::amongs))]
fn among(v: View, p: usize) -> bool
    requires { Open (keys_of v) 0 × IsKey v p }
    ensures { OtherTold (keys_of v.entry) 0 p result }
{
    let s = deeper(v.starts, v.d, p);
    let text = View {
        stored: v.stored,
        starts: &s,
        d: v.d + 1,
        n: size_of(v, p).bytes,
    };
    let m = text.n.min(LAST);
    let room = last_bytes(text, m);
    sought(v, text, p, &room[..m])
}

// Whether no key that is cut has the text of another one, but for those in a window that is over at `next`.
#[tactic(auto, using(crate::specs::CutsWindow::resting))]
fn rest_apart(v: View, next: usize) -> bool
    requires { Open (keys_of v) 0 }
    ensures { AloneTold (keys_of v.entry) (inside_in v.entry next) 0 result }
{
    let mut p = 0;
    let mut here = UNKNOWN;
    while p < v.n {
        let k = key_at(v, p, here);
        if !is_told(v, p, next, k.text.is_some()) && among(v, p) {
            return false;
        }
        p = k.next;
        here = k.reach;
    }
    true
}

// Whether no key that is cut has the text of another one.
#[tactic(auto, using(crate::specs::CutsWindow::cutting))]
pub fn cut_apart(v: View) -> bool
    requires { Open (keys_of v) 0 }
    ensures { AloneTold (keys_of v.entry) (whole_in v.entry) 0 result }
{
    match cut_window(v) {
        None => false,
        Some(next) => rest_apart(v, next),
    }
}
