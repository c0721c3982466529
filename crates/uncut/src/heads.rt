// A field in stored bytes: a tag, two bytes length, high byte first, and the content.
ghost use Rattle.std.specs.Prelude.{◌≡◌, ◌+◌, ◌≤◌, ◌<◌, length, get_or};
ghost use Rattle.exact.specs.Tells.{Tells};
ghost use Rattle.uncut.specs.Short.{longest};
ghost use Rattle.uncut.specs.Heads.{Behind, Lies, Whole};

use language::Kind;

// The tag of a field: its row's kind.
pub fn tag(stored: &[u8], at: usize) -> Kind
    requires { at < length stored.now }
    ensures { result.0 ≡ get_or stored.now at 0 }
{
    Kind(stored[at] as u32)
}

// A byte as a number.
// Stays (point 4): `usize::from` with the byte's range said once, which the sums of `behind` need for two.
fn byte(stored: &[u8], i: usize) -> usize
    requires { i < length stored.now }
    ensures { (result ≡ get_or stored.now i 0) × (result < 256) }
{
    stored[i] as usize
}

// The place behind the field at a place, whose head stands there.
#[tactic(auto, using(crate::proofs::HeadLaws::heading))]
pub fn behind(stored: &[u8], at: usize) -> usize
    requires { (at + 3 ≤ length stored.now) × (at ≤ longest) }
    ensures { Behind stored.now at result }
{
    at + 3 + 256 * byte(stored, at + 1) + byte(stored, at + 2)
}

// Whether a whole field stands at a place, before `stop`.
#[tactic(auto, using(crate::proofs::HeadLaws::heading))]
pub fn is_field(stored: &[u8], at: usize, stop: usize) -> bool
    requires { Lies stored.now at stop }
    ensures { Tells (Whole stored.now at stop) result }
{
    3 <= stop - at && behind(stored, at) <= stop
}
