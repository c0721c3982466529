// Hex digits, one at a time.
ghost use Rattle.std.specs.Prelude.{◌≡◌, true, ◌+◌, ◌<◌};
ghost use Rattle.exact.specs.Class.{is};
ghost use Rattle.exact.specs.Place.{peek};
ghost use Rattle.language.specs.Strings.{hexdigit, lowhex, hexval};
ghost use Rattle.strings.specs.Contract.{digit_of, Digited, DigitRead};

use characters::Reading;

// What reading a digit gives: its value and the place behind it; none where no digit stands.
pub type Digit = Option<(u32, Reading)>;

// The value of a hex digit of either case, none for another byte.
#[tactic(auto, using(crate::proofs::DigitLaws::digits))]
fn hex_digit(b: u32) -> Option<u32>
    ensures { result ≡ digit_of hexdigit b }
{
    match b {
        48..=57 => Some(b - 48),
        65..=70 => Some(b - 55),
        97..=102 => Some(b - 87),
        _ => None,
    }
}

// The lowercase hex digits from 48 on, a bit for each.
const LOWS: u64 = 0x7E0000000003FF;

// Whether a byte is a lowercase hex digit: by its bit, so that digits and letters are told from others without a branch between them.
pub fn is_low(b: u32) -> bool
    ensures { result ≡ is lowhex b }
{
    48 <= b && b <= 102 && (LOWS >> (b - 48)) % 2 == 1
}

// The value of a lowercase hex digit. Digits and letters come in no order that a processor could guess: so they are told apart by a sum, and not by a branch.
#[tactic(auto, using(crate::proofs::DigitLaws::lows))]
fn low_value(b: u32) -> u32
    requires { is lowhex b ≡ true }
    ensures { (result ≡ hexval b) × (result < 16) }
{
    b % 16 + 9 * (b / 64)
}

// The value of the lowercase hex digit that stands here.
pub fn low_here(doc: &[u8], n: Reading) -> u32
    requires { is lowhex (peek doc.now n.at) ≡ true }
    ensures { Digited lowhex doc.now n.at result (n.at + 1) }
{
    let at = n.at;
    low_value(doc[at] as u32)
}

// The hex digit of either case that stands here.
#[tactic(auto, using(crate::proofs::DigitLaws::digit_reads))]
pub fn hex(doc: &[u8], n: Reading) -> Digit
    ensures { DigitRead hexdigit doc.now n.at result }
{
    let (b, m) = n.byte(doc)?;
    let d = hex_digit(b as u32)?;
    Some((d, m))
}

// The lowercase hex digit that stands here.
#[tactic(auto, using(crate::proofs::DigitLaws::digit_reads))]
pub fn low(doc: &[u8], n: Reading) -> Digit
    ensures { DigitRead lowhex doc.now n.at result }
{
    match n.byte(doc) {
        Some((b, m)) if is_low(b as u32) => Some((low_value(b as u32), m)),
        _ => None,
    }
}
