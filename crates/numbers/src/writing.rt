// The text of a number, as it is stored.
ghost use Rattle.std.specs.Prelude.{◌≡◌, [], ◌∷◌, eqb, ℕ, ◌+◌, ◌<◌, length};
ghost use Rattle.exact.specs.Class.{or};
ghost use Rattle.std.proofs.Math.Seq.{slice};
ghost use Rattle.language.specs.Scalars.{signed};
ghost use Rattle.rooms.specs.Contract.{ample};
ghost use Rattle.numbers.specs.Places.{squeezed};
ghost use Rattle.numbers.specs.Texts.{minus_of, number_text};
ghost use Rattle.numbers.specs.Contract.{Dense, Storing, Stored, Whole, Nonzero, Writing};

use super::scanning::Numeral;
use language::Kind;
use rooms::{copy, put_byte};

// A byte stored at x, unless it is a space; the place after it.
#[tactic(auto, using(crate::proofs::TextLaws::squeeze_laws))]
fn put_solid(text: &mut [u8], x: usize, b: u8) -> usize
    requires { x < ample }
    ensures { Stored text.old text.new x result (squeezed (b ∷ [])) }
{
    if b == b' ' {
        return x;
    }
    put_byte(text, x, b);
    x + 1
}

// The document's bytes from a to e without the spaces, stored from x on; the place after them.
#[tactic(auto, using(crate::proofs::TextLaws::squeeze_laws))]
fn squeeze(doc: &[u8], a: usize, e: usize, text: &mut [u8], x: usize) -> usize
    requires { Storing doc.now a e x }
    ensures { Stored text.old text.new x result (squeezed (slice a e doc.now)) }
{
    let mut to = x;
    for i in a..e {
        to = put_solid(text, to, doc[i]);
    }
    to
}

// The same, where `dense` says that there are no spaces.
#[tactic(auto, using(crate::proofs::TextLaws::store_laws))]
fn store(doc: &[u8], a: usize, e: usize, text: &mut [u8], x: usize, dense: bool) -> usize
    requires storing { Storing doc.now a e x }
    requires dense { Dense doc.now a e dense }
    ensures { Stored text.old text.new x result (squeezed (slice a e doc.now)) }
{
    if dense {
        copy(doc, a, e, text, x);
        return x + (e - a);
    }
    squeeze(doc, a, e, text, x)
}

// Whether a byte before the last digit is left out in front: a zero or a space.
#[tactic(auto, using(crate::proofs::TextLaws::skip_laws))]
fn is_skipped(b: u8) -> bool
    ensures { result ≡ or (eqb b 48) (eqb b 32) }
{
    b == b'0' || b == b' '
}

// Where the digits from d to e begin without leading zeros.
#[tactic(auto, using(crate::proofs::TextLaws::skip_laws))]
fn nonzero(doc: &[u8], d: usize, e: usize) -> usize
    requires { Whole doc.now d e }
    ensures { Nonzero doc.now d e result }
{
    for z in d..e - 1 {
        if !is_skipped(doc[z]) {
            return z;
        }
    }
    e - 1
}

// The text of an integer whose digits stand from d to e, stored from x on; the place after it.
#[tactic(auto, using(crate::proofs::IntegerLaws::integer_laws))]
fn integer_text(
    doc: &[u8],
    text: &mut [u8],
    neg: bool,
    d: usize,
    e: usize,
    x: usize,
    dense: bool,
) -> usize
    requires whole { Whole doc.now d e }
    requires storing { Storing doc.now d e (x + 1) }
    requires dense { Dense doc.now d e dense }
    ensures { Stored text.old text.new x result (signed (minus_of neg) (squeezed (slice d e doc.now))) }
{
    let z = nonzero(doc, d, e);
    if neg {
        if doc[z] == b'0' {
            return store(doc, z, e, text, x, dense);
        }
        put_byte(text, x, b'-');
        return store(doc, z, e, text, x + 1, dense);
    }
    store(doc, z, e, text, x, dense)
}

// The text of a number that begins at `at`, and behind its sign at d, stored from x on; the place after it.
#[tactic(auto, using(crate::proofs::IntegerLaws::text_laws))]
pub fn number_text(
    doc: &[u8],
    text: &mut [u8],
    s: Numeral,
    at: usize,
    d: usize,
    neg: bool,
    x: usize,
) -> usize
    requires { Writing doc.now s at d neg x }
    ensures { Stored text.old text.new x result (number_text s.kind.0 (minus_of neg) (squeezed (slice d s.end doc.now))) }
{
    let e = s.end;
    if s.kind.0 == Kind::INTEGER.0 {
        return integer_text(doc, text, neg, d, e, x, s.dense);
    }
    store(doc, at, e, text, x, s.dense)
}
