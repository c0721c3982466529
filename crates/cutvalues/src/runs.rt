// What stands whole before the nearest cut: bytes of the stored ones that follow one behind another, few enough to be one field's.
ghost use Rattle.std.specs.Prelude.{◌≡◌, ◌≤◌, length};
ghost use Rattle.exact.specs.Tells.{Tells};
ghost use Rattle.language.specs.Lent.{lent};
ghost use Rattle.sound.specs.Members.{Sane, One, IsKey};
ghost use Rattle.uncut.specs.Heads.{Lies};
ghost use Rattle.cutvalues.specs.Bridge.{Heads};
ghost use Rattle.cutvalues.specs.Runs.{Movable, moved_to, Met, Several};

use uncut::{Tested, behind, is_field};
use wide::Walked;

// What passing members gives, unless one stands there that is none: the place behind them, and the count of them, of their rows and of their text bytes.
#[derive(Clone, Copy, PartialEq, Eq, Debug)]
pub struct Ran {
    pub end: usize,
    pub members: usize,
    pub rows: usize,
    pub bytes: usize,
}

// What was tested from 0 on stands from a place on; each of its rows has one head, all other bytes are text.
fn moved(tested: Option<Tested>, at: usize) -> Option<Walked>
    requires { Movable at tested }
    ensures { result ≡ moved_to at tested }
{
    let t = tested?;
    Some(Walked {
        to: at + t.to,
        rows: t.rows,
        bytes: t.to - 3 * t.rows,
    })
}

// A key that stands first in a run, as one at a place of a content.
pub fn run_key(run: &[u8], at: usize) -> Option<Walked>
    requires { (length run.now ≤ 65535) × (at ≤ lent) }
    ensures { Met run.now (One IsKey) (length run.now) at result }
{
    moved(uncut::key(run, 0, run.len()), at)
}

// A value.
pub fn run_value(run: &[u8], at: usize, allow: usize) -> Option<Walked>
    requires { (length run.now ≤ 65535) × (at ≤ lent) }
    ensures { Met run.now (One (Sane allow)) (length run.now) at result }
{
    moved(uncut::value(run, 0, run.len(), allow), at)
}

// Whether a whole member stands at a place.
fn is_member(run: &[u8], at: usize, object: bool) -> bool
    requires { Lies run.now at (length run.now) }
    ensures { Tells (Heads run.now object at (length run.now)) result }
{
    let stop = run.len();
    is_field(run, at, stop) && (!object || is_field(run, behind(run, at), stop))
}

// The members that stand whole in a run.
#[tactic(auto, using(crate::proofs::RunLaws::going))]
pub fn several(run: &[u8], allow: usize, object: bool) -> Option<Ran>
    requires { length run.now ≤ 65535 }
    ensures { Several run.now object allow result }
{
    let mut at = 0;
    let mut rows = 0;
    let mut members = 0;
    while is_member(run, at, object) {
        let t = uncut::child(run, at, run.len(), allow, object)?;
        at = t.to;
        rows += t.rows;
        members += 1;
    }
    Some(Ran {
        end: at,
        members,
        rows,
        bytes: at - 3 * rows,
    })
}
