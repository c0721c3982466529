// The characters of a string in the house style: short, as themselves, or by their numbers.
// Stays (point 6): n is how many digits may come, and no count of `out`.
ghost use Rattle.std.specs.Prelude.{◌≡◌, true, [], ◌∷◌, ◌++◌, ◌+◌, ◌-◌, ◌≤◌, ◌<◌, length, get_or};
ghost use Rattle.language.specs.Characters.{character, ascii};
ghost use Rattle.language.specs.House as house;
ghost use Rattle.writer.specs.Puts.{ceiling, Puts};
ghost use Rattle.writer.specs.Codes.{Leads, Coded, Lettered, Marks, Special};

use super::Code;
use super::marks::{all, put, put_two};

// A hex digit.
pub fn digit(d: u8) -> u8
    requires { d ≤ 15 }
    ensures { result ≡ house.hexletter d }
{
    if d <= 9 { b'0' + d } else { b'a' + (d - 10) }
}

// The hex digits of a number, at most n of them.
fn hexes(out: &mut [u8], x: usize, v: u32, n: usize) -> usize
    requires { x + length (house.hexes n v) ≤ ceiling }
    ensures { Puts (house.hexes n v) x result out.old out.new }
{
    if n == 0 {
        return x;
    }
    if v <= 15 {
        return put(out, x, digit(v as u8));
    }
    let y = hexes(out, x, v / 16, n - 1);
    put(out, y, digit((v % 16) as u8))
}

// `\u{…}`.
fn numbered(out: &mut [u8], x: usize, v: u32) -> usize
    requires { x + length (92 ∷ 117 ∷ 123 ∷ house.hexes 6 v ++ 125 ∷ []) ≤ ceiling }
    ensures { Puts (92 ∷ 117 ∷ 123 ∷ house.hexes 6 v ++ 125 ∷ []) x result out.old out.new }
{
    let a = put_two(out, x, b'\\', b'u');
    let b = put(out, a, b'{');
    let c = hexes(out, b, v, 6);
    put(out, c, b'}')
}

// What stands behind a backslash for a character that is written short.
#[tactic(auto, using(crate::specs::Codes::letters))]
fn letter(v: u32) -> Option<u8>
    ensures { Lettered v result }
{
    match v {
        0x22 => Some(b'"'),
        0x5C => Some(b'\\'),
        0x08 => Some(b'b'),
        0x0C => Some(b'f'),
        0x0A => Some(b'n'),
        0x0D => Some(b'r'),
        0x09 => Some(b't'),
        _ => None,
    }
}

// Whether a document may hold the character.
pub fn allowed(v: u32) -> bool
    ensures { result ≡ character ascii v }
{
    match v {
        0x0A | 0x20..=0x7E | 0xA0..=0xD7FF | 0xE000..=0xFDCF | 0xFDF0..=0xFFFD => true,
        0x10000..=0x10FFFF => v % 0x10000 <= 0xFFFD,
        _ => false,
    }
}

// A byte as a number.
// Stays (point 4): `u32::from` with the byte's range said once, which the sums of `code` need at each of four places.
fn byte(s: &[u8], i: usize) -> u32
    requires { i < length s.now }
    ensures { (result ≡ get_or s.now i 0) × (result ≤ 255) × (i < length s.now) }
{
    u32::from(s[i])
}

// What a tail byte adds.
fn tail(s: &[u8], i: usize) -> u32
    requires { (i < length s.now) × (128 ≤ get_or s.now i 0) }
    ensures { (result ≡ get_or s.now i 0 - 128) × (result ≤ 127) × (i < length s.now) }
{
    byte(s, i) - 128
}

// The character at a.
pub fn code(s: &[u8], a: usize) -> Code
    requires { Leads s.now a }
    ensures { (h : Leads s.now a) → Coded h.value a result }
{
    let b = byte(s, a);
    if b <= 127 {
        return Code {
            value: b,
            next: a + 1,
        };
    }
    let second = tail(s, a + 1);
    if b <= 223 {
        return Code {
            value: 64 * (b - 192) + second,
            next: a + 2,
        };
    }
    let third = tail(s, a + 2);
    if b <= 239 {
        return Code {
            value: 4096 * (b - 224) + 64 * second + third,
            next: a + 3,
        };
    }
    let fourth = tail(s, a + 3);
    Code {
        value: 262144 * (b - 240) + 4096 * second + 64 * third + fourth,
        next: a + 4,
    }
}

// The character v, with its bytes.
pub fn shown(bytes: &[u8], v: u32, out: &mut [u8], x: usize) -> usize
    requires { Marks bytes.now v x }
    ensures { Puts (house.shown v) x result out.old out.new }
{
    if let Some(short) = letter(v) {
        return put_two(out, x, b'\\', short);
    }
    if allowed(v) {
        return all(bytes, out, x);
    }
    numbered(out, x, v)
}

// Whether a byte is a quote, a backslash or a control: such a character is never shown as it is.
pub fn is_special(b: u8) -> bool
    ensures { result ≡ true → Special b }
{
    b == b'\\' || b == b'"' || b < 0x20
}

// Such a character.
pub fn special(b: u8, out: &mut [u8], x: usize) -> usize
    requires { Special b × (x + length (house.shown b) ≤ ceiling) }
    ensures { Puts (house.shown b) x result out.old out.new }
{
    let v = b as u32;
    if let Some(short) = letter(v) {
        return put_two(out, x, b'\\', short);
    }
    numbered(out, x, v)
}
