// What a number is, before anything is written.
ghost use Rattle.std.specs.Prelude.{◌≡◌, ℕ, ◌-◌, ◌≤◌, length};
ghost use Rattle.numbers.specs.Numbers.{power_at, point_at};
ghost use Rattle.numbers.specs.Contract.{an_integer, a_float, Other, Passed, PastSign, Powered, Ends, Scans};

use super::digits::group;
use characters::Reading;
use language::Kind;

// A number without its sign: its kind, the place behind it, the place behind its last digits, and whether no space stands in it.
#[derive(Clone, Copy)]
pub struct Numeral {
    pub kind: Kind,
    pub end: usize,
    pub last: usize,
    pub dense: bool,
}

// What is found where a number may stand: the number, or the place where it is refused.
pub type Scanned = Result<Numeral, usize>;

// An integer whose digits end at `end`.
fn integer(end: usize, dense: bool) -> Scanned
    ensures { result ≡ an_integer end dense }
{
    Ok(Numeral {
        kind: Kind::INTEGER,
        end,
        last: end,
        dense,
    })
}

// A float that ends at `end`, and its last digits at `last`.
fn float(end: usize, last: usize, dense: bool) -> Scanned
    ensures { result ≡ a_float end last dense }
{
    Ok(Numeral {
        kind: Kind::FLOAT,
        end,
        last,
        dense,
    })
}

// The place behind the sign, if one stands here.
#[tactic(auto, using(crate::proofs::TakeLaws::sign_laws))]
fn after_sign(doc: &[u8], r: Reading) -> Reading
    requires { r.at ≤ length doc.now }
    ensures { PastSign doc.now r.at result.at }
{
    match r.byte(doc) {
        Some((b'+' | b'-', n)) => n,
        _ => r,
    }
}

// A float of which the exponent's `e` was taken.
#[tactic(auto, using(crate::proofs::TakeLaws::power_laws))]
fn exponent(doc: &[u8], r: Reading, spaced: bool, dense: bool) -> Scanned
    requires { Passed doc.now (r.at - 1) 101 r.at }
    ensures { Powered spaced doc.now (r.at - 1) dense result }
{
    let d = after_sign(doc, r);
    let g = group(doc, d, spaced);
    let end = g.end;
    if end.at == d.at {
        return Err(d.at);
    }
    float(end.at, end.at, dense && g.dense)
}

// A float whose digits and point end here, and its last digits at `last`: with an exponent or without.
#[tactic(auto, using(crate::proofs::TakeLaws::fraction_laws))]
fn fraction(doc: &[u8], r: Reading, last: usize, spaced: bool, dense: bool) -> Scanned
    requires { (r.at ≤ length doc.now) × (last ≤ r.at) }
    ensures { Ends spaced doc.now r.at dense (power_at spaced doc.now last r.at) result }
{
    match r.take(doc, b'e') {
        Ok(at) => exponent(doc, Reading { at }, spaced, dense),
        Err(p) => float(p, last, dense),
    }
}

// A float of which the digits up to `last` and the point behind them were taken.
#[tactic(auto, using(crate::proofs::TakeLaws::point_laws))]
fn pointed(doc: &[u8], r: Reading, last: usize, spaced: bool, dense: bool) -> Scanned
    requires { Passed doc.now last 46 r.at }
    ensures { Ends spaced doc.now last dense (point_at spaced doc.now last) result }
{
    let g = group(doc, r, spaced);
    let end = g.end;
    if end.at == r.at {
        return fraction(doc, r, last, spaced, dense);
    }
    fraction(doc, end, end.at, spaced, dense && g.dense)
}

// A float of which the point was taken, and no digits before it.
#[tactic(auto, using(crate::proofs::TakeLaws::point_laws))]
fn led(doc: &[u8], r: Reading, spaced: bool) -> Scanned
    requires { Passed doc.now (r.at - 1) 46 r.at }
    ensures { Scans spaced doc.now (r.at - 1) result }
{
    let g = group(doc, r, spaced);
    let end = g.end;
    if end.at == r.at {
        return Err(r.at);
    }
    fraction(doc, end, end.at, spaced, g.dense)
}

// A number that begins with no point.
#[tactic(auto, using(crate::proofs::TakeLaws::whole_laws))]
fn whole(doc: &[u8], r: Reading, spaced: bool) -> Scanned
    requires at_in_bounds { r.at ≤ length doc.now }
    requires other { Other doc.now r.at 46 }
    ensures { Scans spaced doc.now r.at result }
{
    let g = group(doc, r, spaced);
    let end = g.end;
    if end.at == r.at {
        return Err(r.at);
    }
    match end.take(doc, b'.') {
        Ok(at) => pointed(doc, Reading { at }, end.at, spaced, g.dense),
        Err(p) => match end.take(doc, b'e') {
            Ok(at) => exponent(doc, Reading { at }, spaced, g.dense),
            Err(q) => integer(q, g.dense),
        },
    }
}

// A number without its sign.
#[tactic(auto, using(crate::proofs::TakeLaws::scan_laws))]
pub fn scan(doc: &[u8], r: Reading, spaced: bool) -> Scanned
    requires { r.at ≤ length doc.now }
    ensures { Scans spaced doc.now r.at result }
{
    match r.take(doc, b'.') {
        Ok(at) => led(doc, Reading { at }, spaced),
        Err(_) => whole(doc, r, spaced),
    }
}
