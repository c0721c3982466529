// An integer's text.
ghost use Rattle.std.specs.Prelude.{◌≡◌, true, drop};
ghost use Rattle.exact.specs.Tells.{Tells};
ghost use Rattle.integers.specs.Integer as I;

use super::float::number;
use integers::Text;

// Whether digits without a leading zero are left, at least one, and nothing else.
fn counting<S: Text>(s: S, at: usize) -> bool
    ensures { Tells (I.counting (drop at (S.bytes s)) ≡ true) result }
{
    if s.byte(at) == b'0' {
        return false;
    }
    number(s, at)
}

// Whether the text is an integer's.
pub fn is_integer<S: Text>(s: S) -> bool
    ensures { Tells (I.is_integer (S.bytes s) ≡ true) result }
{
    match s.byte(0) {
        b'0' => s.count() == 1,
        b'-' => counting(s, 1),
        _ => counting(s, 0),
    }
}
