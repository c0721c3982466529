// Runs of digits in a text.
ghost use Rattle.std.specs.Prelude.{◌≡◌};
ghost use Rattle.integers.specs.Integer as I;

// Whether the bytes are digits without a leading zero, at least one.
pub fn counting(s: &[u8]) -> bool
    ensures { result ≡ I.counting s.now }
{
    match s {
        [b'1'..=b'9', rest @ ..] => rest.iter().all(u8::is_ascii_digit),
        _ => false,
    }
}
