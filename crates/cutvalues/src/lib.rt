// Whether a value stands in a content that is cut, or in stored bytes that are more than one field holds. What lies whole before the nearest cut is tested where it stands, as in `tested`.
// Stays (point 5): a view goes with a place, an allowance and the kind of its container, which are others for each field: a struct of them would be made anew for each call.
#![tactic(auto)]

ghost use Rattle.std.specs.Prelude.{true, ◌+◌, ◌<◌, ◌≤◌};
ghost use Rattle.sound.specs.Members.{Sane, One, IsKey, Member, container_kind};
ghost use Rattle.views.specs.Contents.{all};
ghost use Rattle.views.specs.Extents.{Whole};
ghost use Rattle.wide.specs.Tests.{Tests};
ghost use Rattle.wide.specs.Walk.{Went};
ghost use Rattle.cutvalues.specs.Runs.{Standing, RanOn, Stretched, Closing, ClosedTold, NoContainer};

mod runs;

use cutkeys::apart;
use runs::{Ran, run_key, run_value, several};
use texts::{is_scalar, is_script};
use uncut::is_field;
use views::{Span, View, deeper, extent};
use wide::{Walked, near};

// The bytes from a place on that stand before the nearest cut.
fn run_at(v: View, at: usize) -> &[u8]
    requires { at ≤ v.n }
    ensures { Standing (all v.entry) at v.entry.n result.now }
{
    let r = near(v, at);
    &v.stored[r.place..r.place + r.left]
}

// A key that is cut.
fn named(v: View, at: usize, f: Span) -> Option<Walked>
    requires { (v.d < 34) × (at ≤ v.n) × Whole (all v) at v.n 10 f.bytes f.end }
    ensures { Tests (all v.entry) (One IsKey) at v.entry.n result }
{
    let s = deeper(v.starts, v.d, at);
    let text = View {
        stored: v.stored,
        starts: &s,
        d: v.d + 1,
        n: f.bytes,
    };
    if is_script(text) {
        return Some(Walked {
            to: f.end,
            rows: 1,
            bytes: f.bytes,
        });
    }
    None
}

// The same, if a field stands there that is a key's.
fn cut_key(v: View, at: usize) -> Option<Walked>
    requires { (v.d < 34) × (at ≤ v.n) }
    ensures { Tests (all v.entry) (One IsKey) at v.entry.n result }
{
    let f = extent(v, at)?;
    if f.tag != 10 {
        return None;
    }
    named(v, at, f)
}

// A key.
fn key(v: View, at: usize) -> Option<Walked>
    requires { (v.d < 34) × (at ≤ v.n) }
    ensures { Tests (all v.entry) (One IsKey) at v.entry.n result }
{
    let run = run_at(v, at);
    if is_field(run, 0, run.len()) {
        return run_key(run, at);
    }
    cut_key(v, at)
}

// A scalar that is cut.
fn cut_scalar(v: View, at: usize, f: Span, allow: usize) -> Option<Walked>
    requires { (v.d < 34) × (at ≤ v.n) × Whole (all v) at v.n f.tag f.bytes f.end × NoContainer f.tag }
    ensures { Tests (all v.entry) (One (Sane allow)) at v.entry.n result }
{
    let s = deeper(v.starts, v.d, at);
    let text = View {
        stored: v.stored,
        starts: &s,
        d: v.d + 1,
        n: f.bytes,
    };
    if is_scalar(text, f.tag) {
        return Some(Walked {
            to: f.end,
            rows: 1,
            bytes: f.bytes,
        });
    }
    None
}

// Whether the members of a content make a container: no two keys of an object are equal. It is put into no caller, whose frame stands once for each level.
#[inline(never)]
#[tactic(auto, using(crate::proofs::CutLaws::closing))]
fn closed(v: View, members: usize, object: bool) -> bool
    requires { (v.d < 34) × Closing (all v) object v.n members }
    ensures { ClosedTold (all v.entry) object v.entry.n result }
{
    !object || apart(v, members)
}

// The members that stand whole before the nearest cut.
fn near_members(v: View, at: usize, allow: usize, object: bool) -> Option<Ran>
    requires { at ≤ v.n }
    ensures { RanOn (all v.entry) object allow at v.entry.n result }
{
    let r = several(run_at(v, at), allow, object)?;
    Some(Ran {
        end: at + r.end,
        members: r.members,
        rows: r.rows,
        bytes: r.bytes,
    })
}

// The cycle. A value, with an allowance of containers one inside another.
#[cycle(child_children_container_cut_value_pair_stretch_value)]
pub fn value(v: View, at: usize, allow: usize) -> Option<Walked>
    requires { (v.d + allow ≤ 32) × (at ≤ v.n) }
    ensures { Tests (all v.entry) (One (Sane allow)) at v.entry.n result }
{
    let run = run_at(v, at);
    if is_field(run, 0, run.len()) {
        return run_value(run, at, allow);
    }
    cut_value(v, at, allow)
}

// The same, where it is cut.
#[cycle(child_children_container_cut_value_pair_stretch_value)]
fn cut_value(v: View, at: usize, allow: usize) -> Option<Walked>
    requires { (v.d + allow ≤ 32) × (at ≤ v.n) }
    ensures { Tests (all v.entry) (One (Sane allow)) at v.entry.n result }
{
    let f = extent(v, at)?;
    match f.tag {
        8 => container(v, at, f, allow, false),
        9 => container(v, at, f, allow, true),
        _ => cut_scalar(v, at, f, allow),
    }
}

// A container whose content is cut: its members have one container less allowed.
#[cycle(child_children_container_cut_value_pair_stretch_value)]
fn container(v: View, at: usize, f: Span, allow: usize, object: bool) -> Option<Walked>
    requires { (v.d + allow ≤ 32) × (at ≤ v.n) × Whole (all v) at v.n (container_kind object) f.bytes f.end }
    ensures { Tests (all v.entry) (One (Sane allow)) at v.entry.n result }
{
    if allow == 0 {
        return None;
    }
    let s = deeper(v.starts, v.d, at);
    let content = View {
        stored: v.stored,
        starts: &s,
        d: v.d + 1,
        n: f.bytes,
    };
    let c = children(content, allow - 1, object)?;
    if closed(content, c.to, object) {
        return Some(Walked {
            to: f.end,
            rows: c.rows + 1,
            bytes: c.bytes,
        });
    }
    None
}

// Its members: how many they are, and how many rows and text bytes they have.
#[cycle(child_children_container_cut_value_pair_stretch_value)]
fn children(v: View, allow: usize, object: bool) -> Option<Walked>
    requires { v.d + allow ≤ 32 }
    ensures { Went (all v.entry) object allow 0 v.entry.n result }
{
    let mut at = 0;
    let mut members = 0;
    let mut rows = 0;
    let mut bytes = 0;
    while at < v.n {
        let r = stretch(v, at, allow, object)?;
        at = r.end;
        members += r.members;
        rows += r.rows;
        bytes += r.bytes;
    }
    Some(Walked {
        to: members,
        rows,
        bytes,
    })
}

// Some of them: those before the nearest cut, and the one behind them, which is cut.
#[cycle(child_children_container_cut_value_pair_stretch_value)]
fn stretch(v: View, at: usize, allow: usize, object: bool) -> Option<Ran>
    requires { (v.d + allow ≤ 32) × (at < v.n) }
    ensures { Stretched (all v.entry) object allow at v.entry.n result }
{
    let r = near_members(v, at, allow, object)?;
    if v.n <= r.end {
        return Some(r);
    }
    let c = child(v, r.end, allow, object)?;
    Some(Ran {
        end: c.to,
        members: r.members + 1,
        rows: r.rows + c.rows,
        bytes: r.bytes + c.bytes,
    })
}

// An element, or a key and its value.
#[cycle(child_children_container_cut_value_pair_stretch_value)]
fn child(v: View, at: usize, allow: usize, object: bool) -> Option<Walked>
    requires { (v.d + allow ≤ 32) × (at ≤ v.n) }
    ensures { Tests (all v.entry) (Member object allow) at v.entry.n result }
{
    if object {
        return pair(v, at, allow);
    }
    value(v, at, allow)
}

// A key and its value.
#[cycle(child_children_container_cut_value_pair_stretch_value)]
fn pair(v: View, at: usize, allow: usize) -> Option<Walked>
    requires { (v.d + allow ≤ 32) × (at ≤ v.n) }
    ensures { Tests (all v.entry) (Member true allow) at v.entry.n result }
{
    let k = key(v, at)?;
    let w = value(v, k.to, allow)?;
    Some(Walked {
        to: w.to,
        rows: w.rows + 1,
        bytes: k.bytes + w.bytes,
    })
}
