// Whether a text is that of a scalar: "the UTF-8 of scalar values", a float of the grammar, an integer, bytes. The tests are over any text, whole or in runs; a part of the text room is one.
#![tactic(auto)]

mod float;
mod integer;
mod script;

ghost use Rattle.std.specs.Prelude.{◌≡◌, true, ◌≤◌, length};
ghost use Rattle.std.proofs.Math.Seq.{slice};
ghost use Rattle.exact.specs.Tells.{Tells};
ghost use Rattle.integers.specs.Integer.{is_integer};
ghost use Rattle.shaped.specs.Shaped.{Scripted, FloatText, Scalar};

pub use float::is_float;
pub use integer::is_integer;
use integers::Text;
use language::Kind;
pub use script::is_script;

// Whether the text is that of a scalar of this kind. `null`, `false` and `true` have the empty text; bytes are any; a kind that is no scalar's has none.
pub fn is_scalar<S: Text>(s: S, kind: usize) -> bool
    ensures { Tells (Scalar kind (S.bytes s)) result }
{
    let n = s.count();
    match kind {
        1..=3 => n == 0,
        4 => is_integer(s),
        5 => is_float(s),
        6 => is_script(s),
        7 => true,
        _ => false,
    }
}

// Whether the part is UTF-8 of scalar values.
pub fn scripted(text: &[u8], a: usize, e: usize) -> bool
    requires { (a ≤ e) × (e ≤ length text.now) }
    ensures { Tells (Scripted (slice a e text.now)) result }
{
    is_script(&text[a..e])
}

// Whether the part is a float's text.
pub fn float_text(text: &[u8], a: usize, e: usize) -> bool
    requires { (a ≤ e) × (e ≤ length text.now) }
    ensures { Tells (FloatText (slice a e text.now)) result }
{
    is_float(&text[a..e])
}

// Whether the part is an integer's text.
pub fn integer_text(text: &[u8], a: usize, e: usize) -> bool
    requires { (a ≤ e) × (e ≤ length text.now) }
    ensures { Tells (is_integer (slice a e text.now) ≡ true) result }
{
    is_integer(&text[a..e])
}

// The same of a part.
pub fn scalar_text(text: &[u8], kind: Kind, a: usize, e: usize) -> bool
    requires { (a ≤ e) × (e ≤ length text.now) }
    ensures { Tells (Scalar kind.0 (slice a e text.now)) result }
{
    is_scalar(&text[a..e], kind.0 as usize)
}
