// A float's text: "any float of the grammar without its spaces".
ghost use Rattle.std.specs.Prelude.{◌≡◌, ◌≤◌, length, drop};
ghost use Rattle.exact.specs.Tells.{Tells};
ghost use Rattle.shaped.specs.Shaped.{Number, Power, Powers, Decimal, FloatText};
ghost use Rattle.texts.specs.Float.{Digited, Fraction, Broken, Onward, Unsigned};
ghost use Rattle.texts.specs.Digits.{Leading};

use integers::Text;

// How many digits stand at the front of a run.
fn leading(run: &[u8]) -> usize
    ensures { Leading run.now result }
{
    // Stays (point 3): tried; by `position` the test of soundness takes 34% longer on floats, by this loop 15%, as measured beside the form of before.
    let mut n = 0;
    while n < run.len() && run[n].is_ascii_digit() {
        n += 1;
    }
    n
}

// The place behind the digits that stand here.
fn digits<S: Text>(s: S, at: usize) -> usize
    ensures { Digited (S.bytes s) at result }
{
    let mut i = at;
    while i < s.count() {
        let run = s.run(i);
        let n = leading(run);
        i += n;
        if n < run.len() {
            return i;
        }
    }
    i
}

// Whether digits are left, at least one, and nothing else.
pub fn number<S: Text>(s: S, at: usize) -> bool
    ensures { Tells (Number (drop at (S.bytes s))) result }
{
    let n = digits(s, at);
    if n == at {
        return false;
    }
    s.count() <= n
}

// Whether an exponent is left.
fn power<S: Text>(s: S, at: usize) -> bool
    ensures { Tells (Power (drop at (S.bytes s))) result }
{
    if s.byte(at) != b'e' {
        return false;
    }
    match s.byte(at + 1) {
        b'+' | b'-' => number(s, at + 2),
        _ => number(s, at + 1),
    }
}

// The same, or nothing.
#[tactic(auto, using(crate::specs::Places::powers_told, crate::specs::Places::powers_none))]
fn powers<S: Text>(s: S, at: usize) -> bool
    ensures { Tells (Powers (drop at (S.bytes s))) result }
{
    s.count() <= at || power(s, at)
}

// Whether what is left can follow a point that stands behind digits: any number of digits, and an exponent or none.
fn fraction<S: Text>(s: S, at: usize) -> bool
    ensures { Tells (Fraction (drop at (S.bytes s))) result }
{
    powers(s, digits(s, at))
}

// Whether what is left can follow digits: a point and a fraction, or an exponent.
fn onward<S: Text>(s: S, at: usize) -> bool
    ensures { Tells (Onward (drop at (S.bytes s))) result }
{
    if s.byte(at) == b'.' {
        return fraction(s, at + 1);
    }
    power(s, at)
}

// Whether a point is left, digits, at least one, and an exponent or none.
fn broken<S: Text>(s: S, at: usize) -> bool
    ensures { Tells (Broken (drop at (S.bytes s))) result }
{
    if s.byte(at) != b'.' {
        return false;
    }
    let p = at + 1;
    let n = digits(s, p);
    if n == p {
        return false;
    }
    powers(s, n)
}

// "`d.`, `d.d`, `.d` or `d`, then an optional exponent; the form `d` needs the exponent"
fn decimal<S: Text>(s: S, at: usize) -> bool
    ensures { Tells (Decimal (drop at (S.bytes s))) result }
{
    let n = digits(s, at);
    if n == at {
        return broken(s, at);
    }
    onward(s, n)
}

// Whether this word is left.
fn word<S: Text>(s: S, at: usize, w: &[u8]) -> bool
    requires { at ≤ length (S.bytes s) }
    ensures { Tells (drop at (S.bytes s) ≡ w.now) result }
{
    if s.count() - at != w.len() {
        return false;
    }
    for i in 0..w.len() {
        if s.byte(at + i) != w[i] {
            return false;
        }
    }
    true
}

// Whether a float is left that has no minus and is a number.
fn unsigned<S: Text>(s: S, at: usize) -> bool
    requires { at ≤ length (S.bytes s) }
    ensures { Tells (Unsigned (drop at (S.bytes s))) result }
{
    if word(s, at, b"infinity") {
        return true;
    }
    decimal(s, at)
}

// Whether the text is a float's.
pub fn is_float<S: Text>(s: S) -> bool
    ensures { Tells (FloatText (S.bytes s)) result }
{
    if s.byte(0) == b'-' {
        return unsigned(s, 1);
    }
    if word(s, 0, b"nan") {
        return true;
    }
    unsigned(s, 0)
}
