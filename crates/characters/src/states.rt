// The characters of 128 and more, by their bytes' ranges and a function for each state that several come to: what most of them need.
ghost use Rattle.std.specs.Prelude.{◌≤◌, ◌<◌, length, get_or};
ghost use Rattle.characters.specs.Rest.{ByteAt, Within, Rest, Planed};
ghost use Rattle.characters.specs.Reads.{WideAt};
ghost use Rattle.utf8.specs.Utf8.{start, one_more, two_more, after_ef, after_ef_b7, plane_end, last};

use super::table::walk_end;
use super::{Reading, Skip};

// A byte inside a character, the one at i; behind the end 0, with which no character goes on.
// Stays (points 1, 4): with `doc.get(i)` each range below would stand in a Some of its own, and the match would be no plainer.
#[tactic(auto, using(crate::specs::Rest::byte_there, crate::specs::Rest::byte_over, crate::proofs::Rests::resting))]
fn byte(doc: &[u8], i: usize) -> u8
    ensures { ByteAt doc.now i result }
{
    if i < doc.len() {
        return doc[i];
    }
    0
}

// The place behind the byte at i, if it is one of low to high.
#[tactic(auto, using(crate::specs::Rest::within_it, crate::specs::Rest::within_none, crate::proofs::Rests::resting))]
fn within(doc: &[u8], i: usize, low: u8, high: u8) -> Option<usize>
    ensures { Within doc.now i low high result }
{
    if i < doc.len() && low <= doc[i] && doc[i] <= high {
        Some(i + 1)
    } else {
        None
    }
}

// Where a character ends, by the state before its byte at i, after which the function is named.
#[tactic(auto, using(crate::proofs::Rests::one_here, crate::proofs::Rests::resting))]
fn one_more(doc: &[u8], i: usize) -> Option<usize>
    ensures { Rest doc.now i one_more result }
{
    within(doc, i, 128, 191)
}

#[tactic(auto, using(crate::proofs::Rests::two_then, crate::proofs::Rests::resting))]
fn two_more(doc: &[u8], i: usize) -> Option<usize>
    ensures { Rest doc.now i two_more result }
{
    one_more(doc, within(doc, i, 128, 191)?)
}

#[tactic(auto, using(crate::proofs::Rests::last_here, crate::proofs::Rests::resting))]
fn last(doc: &[u8], i: usize) -> Option<usize>
    ensures { Rest doc.now i last result }
{
    within(doc, i, 128, 189)
}

#[tactic(auto, using(crate::proofs::Rests::b7_low, crate::proofs::Rests::b7_high, crate::proofs::Rests::resting))]
fn after_ef_b7(doc: &[u8], i: usize) -> Option<usize>
    ensures { Rest doc.now i after_ef_b7 result }
{
    match byte(doc, i) {
        128..=143 => Some(i + 1),
        176..=191 => Some(i + 1),
        _ => None,
    }
}

#[tactic(auto, using(crate::proofs::Rests::ef_b7, crate::proofs::Rests::ef_last, crate::proofs::Rests::ef_one, crate::proofs::Rests::resting))]
fn after_ef(doc: &[u8], i: usize) -> Option<usize>
    ensures { Rest doc.now i after_ef result }
{
    match byte(doc, i) {
        183 => after_ef_b7(doc, i + 1),
        128..=190 => one_more(doc, i + 1),
        191 => last(doc, i + 1),
        _ => None,
    }
}

#[tactic(auto, using(crate::proofs::Rests::end_last, crate::proofs::Rests::end_one, crate::proofs::Rests::resting))]
fn plane_end(doc: &[u8], i: usize) -> Option<usize>
    ensures { Rest doc.now i plane_end result }
{
    match byte(doc, i) {
        128..=190 => one_more(doc, i + 1),
        191 => last(doc, i + 1),
        _ => None,
    }
}

// The same after the first of four bytes, behind which low to high may stand: the last of each sixteen leads to the end of a plane.
#[tactic(auto, using(crate::specs::Rest::planed_none, crate::specs::Rest::planed_end, crate::specs::Rest::planed_on, crate::proofs::Rests::resting))]
fn planes(doc: &[u8], i: usize, low: u8, high: u8) -> Option<usize>
    ensures { Planed doc.now i low high result }
{
    let n = within(doc, i, low, high)?;
    if doc[i] % 16 == 15 {
        plane_end(doc, n)
    } else {
        two_more(doc, n)
    }
}

// The same from the first byte of three, and of four, on.
#[tactic(auto, using(crate::proofs::Rests::start_e0, crate::proofs::Rests::start_ed, crate::proofs::Rests::start_ef, crate::proofs::Rests::start_two, crate::proofs::Rests::start_ee, crate::proofs::Rests::resting))]
fn three(doc: &[u8], at: usize) -> Option<usize>
    ensures { Rest doc.now at start result }
{
    match byte(doc, at) {
        224 => one_more(doc, within(doc, at + 1, 160, 191)?),
        225..=236 => two_more(doc, at + 1),
        237 => one_more(doc, within(doc, at + 1, 128, 159)?),
        238 => two_more(doc, at + 1),
        239 => after_ef(doc, at + 1),
        _ => None,
    }
}

#[tactic(auto, using(crate::proofs::Rests::start_f0, crate::proofs::Rests::start_f1, crate::proofs::Rests::start_f4, crate::proofs::Rests::resting))]
fn four(doc: &[u8], at: usize) -> Option<usize>
    ensures { Rest doc.now at start result }
{
    match byte(doc, at) {
        240 => planes(doc, at + 1, 144, 191),
        241..=243 => planes(doc, at + 1, 128, 191),
        244 => planes(doc, at + 1, 128, 143),
        _ => None,
    }
}

// Where the character of several bytes that begins at `at` ends, if one does. Those of two bytes are the most, and are told first.
#[tactic(auto, using(crate::proofs::Rests::start_c2, crate::proofs::Rests::start_one, crate::proofs::Rests::resting))]
pub fn whole(doc: &[u8], at: usize) -> Option<usize>
    ensures { Rest doc.now at start result }
{
    match byte(doc, at) {
        194 => within(doc, at + 1, 160, 191),
        195..=223 => one_more(doc, at + 1),
        224..=239 => three(doc, at),
        _ => four(doc, at),
    }
}

impl Reading {
    // The character of several bytes here, passed at once: the place behind it, or the byte that refuses it. It is a step of `scalar` whose value nobody asks for.
    #[tactic(auto, using(crate::proofs::Rests::wide_whole, crate::proofs::Rests::resting))]
    pub fn wide(self, doc: &[u8]) -> Skip
        requires at_in_bounds { self.at < length doc.now }
        requires bound { 128 ≤ get_or doc.now self.at 0 }
        ensures { WideAt doc.now self.at result }
    {
        let at = self.at;
        match whole(doc, at) {
            Some(e) => Ok(e),
            None => walk_end(doc, at),
        }
    }
}
