// Where digits end, with single spaces between them or without.
ghost use Rattle.std.specs.Prelude.{true, ℕ, ◌≤◌, length};
ghost use Rattle.numbers.specs.Contract.{PastGap, Grouped};

use characters::{Reading, Skip};

// Digits: the place behind them, and whether no space stands between them.
#[derive(Clone, Copy)]
pub struct Stretch {
    pub end: Reading,
    pub dense: bool,
}

// A space and the digits that follow it, passed over; refused here, where no such stand.
#[tactic(auto, using(crate::proofs::DigitLaws::gap_laws))]
fn after_gap(doc: &[u8], r: Reading) -> Skip
    ensures { PastGap doc.now r.at result }
{
    match r.byte(doc) {
        Some((b' ', n)) => {
            let e = n.digits(doc);
            if e.at == n.at {
                return Err(r.at);
            }
            Ok(e.at)
        }
        _ => Err(r.at),
    }
}

// Digits, with single spaces between them. A gap is passed or ends the loop: the next place waits for no comparison of places.
#[tactic(auto, using(crate::proofs::DigitLaws::digit_laws))]
fn spaced_group(doc: &[u8], r: Reading) -> Stretch
    requires { r.at ≤ length doc.now }
    ensures { Grouped true doc.now r.at result }
{
    let mut end = r.digits(doc);
    let mut dense = true;
    if end.at == r.at {
        return Stretch { end, dense };
    }
    while let Ok(at) = after_gap(doc, end) {
        dense = false;
        end = Reading { at };
    }
    Stretch { end, dense }
}

// Digits, with single spaces between them where `spaced` holds. There are none if they end where they begin.
#[tactic(auto, using(crate::proofs::DigitLaws::digit_laws))]
pub fn group(doc: &[u8], r: Reading, spaced: bool) -> Stretch
    requires { r.at ≤ length doc.now }
    ensures { Grouped spaced doc.now r.at result }
{
    if spaced {
        return spaced_group(doc, r);
    }
    let end = r.digits(doc);
    Stretch { end, dense: true }
}
