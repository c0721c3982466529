// A field in a content, by the heads of its parts.
ghost use Rattle.std.specs.Prelude.{◌+◌, ◌≤◌};
ghost use Rattle.language.specs.Lent.{lent};
ghost use Rattle.views.specs.Contents.{all};
ghost use Rattle.views.specs.Extents.{Headed, Told, Ended};
ghost use Rattle.views.specs.Spans.{HeadAsked};

use super::{View, byte_at};
use stored::WIDEST;

// The true tag of a field, the bytes of its content, and the place behind it.
#[derive(Clone, Copy, PartialEq, Eq, Debug)]
pub struct Span {
    pub tag: usize,
    pub bytes: usize,
    pub end: usize,
}

// The length that the head at a place tells.
fn length_at(v: View, at: usize) -> usize
    requires { HeadAsked v.stored.now v.starts.now v.d at }
    ensures { Headed (all v.entry) at result }
{
    256 * byte_at(v.stored, v.starts, v.d, at + 1) as usize
        + byte_at(v.stored, v.starts, v.d, at + 2) as usize
}

// The end of a field behind parts with n bytes: it has a byte, if there are any.
fn ended(tag: usize, n: usize, m: usize, end: usize) -> Option<Span>
    requires { n + m ≤ lent }
    ensures { Ended tag n m end result }
{
    if m == 0 && 0 < n {
        return None;
    }
    Some(Span {
        tag,
        bytes: n + m,
        end,
    })
}

// The field at a place of a content, or that none stands there.
pub fn extent(v: View, at: usize) -> Option<Span>
    requires { at ≤ v.n }
    ensures { Told (all v.entry) at v.entry.n result }
{
    // Stays (point 3): no plainer. A `for` over `(at..v.n).step_by(WIDEST + 3)` asks for a measure and a law of its walk all the same, and for a test in it that a head is left, so that none is read behind the end.
    let mut p = at;
    let mut n = 0;
    while p + 3 <= v.n {
        let m = length_at(v, p);
        if v.n - (p + 3) < m {
            return None;
        }
        let tag = byte_at(v.stored, v.starts, v.d, p) as usize;
        if tag != 11 {
            return ended(tag, n, m, p + 3 + m);
        }
        if m != WIDEST {
            return None;
        }
        n += WIDEST;
        p += WIDEST + 3;
    }
    None
}
