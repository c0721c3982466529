// Whether a text is an integer's.
ghost use Rattle.std.specs.Prelude.{◌≡◌};
ghost use Rattle.integers.specs.Integer.{is_integer};

use super::numeral::counting;

// Whether the text is an integer's.
pub fn is_integer(s: &[u8]) -> bool
    ensures { result ≡ is_integer s.now }
{
    s == b"0".as_slice() || counting(s.strip_prefix(b"-").unwrap_or(s))
}
