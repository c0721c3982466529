// Contents in parts, as if they were whole: a view is the places of the fields around, each in the content of the one around it, from the stored bytes in.
#![tactic(auto)]

ghost use Rattle.std.specs.Prelude.{◌≡◌, ◌+◌, ◌-◌, ◌*◌, ◌/◌, ◌%◌, ◌<◌, ◌≤◌, length, get_or};
ghost use Rattle.language.specs.Lent.{lent};
ghost use Rattle.views.specs.Views.{viewed, place_of, Seen, Reached, Deeper, ByteAsked};

mod parts;
mod view;

pub use parts::{Span, extent};
use stored::WIDEST;
pub use view::View;

// The deepest field stands in 32 containers, and its text is a content too.
pub const LEVELS: usize = 34;

// Where a byte of a content stands in the stored bytes, and how many from it on stand there one behind another.
#[derive(Clone, Copy, PartialEq, Eq, Debug)]
pub struct Reach {
    pub place: usize,
    pub left: usize,
}

// The view of the content of the field at a place of a content.
pub fn deeper(starts: &[u32; LEVELS], d: usize, at: usize) -> [u32; LEVELS]
    requires { (d < 34) × (at ≤ lent) }
    ensures { Deeper starts.now d at result }
{
    let mut s = *starts;
    s[d] = at as u32;
    s
}

// Where byte p of the content of the field at a stands in the content around.
fn outward(a: u32, p: usize) -> usize
    requires { a + p + 3 * (p / 65535 + 1) < lent }
    ensures { result ≡ a + p + 3 * (p / 65535 + 1) }
{
    a as usize + p + 3 * (p / WIDEST + 1)
}

// The place of byte i of a content.
pub fn place(starts: &[u32; LEVELS], d: usize, i: usize) -> usize
    requires { (d ≤ 34) × Seen starts.now d i }
    ensures { result ≡ place_of starts.now d i }
{
    let mut p = i;
    for k in (0..d).rev() {
        p = outward(starts[k], p);
    }
    p
}

// The bytes up to the next cut from byte p of a content on, at most `left`.
fn nearer(p: usize, left: usize) -> usize
    ensures { (result ≤ left) × (result ≤ 65535 - p % 65535) × (0 < left → 0 < result) }
{
    left.min(WIDEST - p % WIDEST)
}

// The same, and the bytes up to the nearest cut of all contents around, at most `most`.
pub fn run(starts: &[u32; LEVELS], d: usize, i: usize, most: usize) -> Reach
    requires { (d ≤ 34) × Seen starts.now d i }
    ensures { Reached starts.now d i most result.place result.left }
{
    let mut p = i;
    let mut left = most;
    for k in (0..d).rev() {
        left = nearer(p, left);
        p = outward(starts[k], p);
    }
    Reach { place: p, left }
}

// Byte i of a content.
pub fn byte_at(stored: &[u8], starts: &[u32; LEVELS], d: usize, i: usize) -> u8
    requires { ByteAsked stored.now starts.now d i }
    ensures { result ≡ get_or (viewed stored.now starts.now d) i 0 }
{
    stored[place(starts, d, i)]
}
