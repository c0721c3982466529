// Comparing two integer texts as numbers.
ghost use Rattle.std.specs.Prelude.{◌≡◌};
ghost use Rattle.integers.specs.Contract.{by_size, Integers, Ordered};
ghost use Rattle.integers.specs.Order as O;

use super::NotInt;
use super::integer::is_integer;
use std::cmp::Ordering;

// Digits without leading zeros: more of them are more, and as many go byte by byte.
fn by_size(a: &[u8], b: &[u8]) -> Ordering
    ensures { result ≡ by_size a.now b.now }
{
    a.len().cmp(&b.len()).then_with(|| a.cmp(b))
}

// Two texts that are integers'.
fn ordered(left: &[u8], right: &[u8]) -> Ordering
    requires { Integers left.now right.now }
    ensures { Ordered left.now right.now result }
{
    match (left.strip_prefix(b"-"), right.strip_prefix(b"-")) {
        (Some(left), Some(right)) => by_size(right, left),
        (Some(_), None) => Ordering::Less,
        (None, Some(_)) => Ordering::Greater,
        (None, None) => by_size(left, right),
    }
}

// The numeric order, or that one is no integer's text; the left is tested first.
pub fn compare(left: &[u8], right: &[u8]) -> Result<Ordering, NotInt>
    ensures { O.compared_verdict result ≡ O.compared left.now right.now }
{
    if is_integer(left) && is_integer(right) {
        Ok(ordered(left, right))
    } else {
        Err(NotInt)
    }
}
