// Whether stored bytes are the field of a value: each field in its turn is tested for what the form of a document's tree would have there.
// Stays (point 5): stored, at, stop and allow go as parameters: all but the bytes are others for each field, so that a struct of them would be made anew for each call.
ghost use Rattle.std.specs.Prelude.{◌≡◌, true, false, suc, ◌+◌, get_or};
ghost use Rattle.sound.specs.Members.{Sane, One, IsKey, Member, container_kind};
ghost use Rattle.uncut.specs.Heads.{Lies, Field};
ghost use Rattle.uncut.specs.Tested.{Tests, NoContainer};
ghost use Rattle.uncut.specs.Walk.{Went};
ghost use Rattle.uncut.specs.Containers.{Closing};

use super::heads::{behind, is_field, tag};
use super::keys::apart;
use texts::{scalar_text, scripted};

// What testing gives, unless no tree has the fields: the place behind them and the count of their rows.
#[derive(Clone, Copy)]
pub struct Tested {
    pub to: usize,
    pub rows: usize,
}

// What passing the members of a container gives, unless one is none: how many they are, and how many rows they have.
#[derive(Clone, Copy)]
pub struct Several {
    pub count: usize,
    pub rows: usize,
}

// A key, whose field ends at `end`.
#[tactic(auto, using(crate::proofs::CycleLaws::leafing))]
fn named(stored: &[u8], at: usize, end: usize) -> Option<Tested>
    requires { Field stored.now at end }
    ensures { Tests stored.now (One IsKey) at end result }
{
    if stored[at] == 10 && scripted(stored, at + 3, end) {
        return Some(Tested { to: end, rows: 1 });
    }
    None
}

// A key before `stop`.
#[tactic(auto, using(crate::proofs::CycleLaws::fielding))]
pub fn key(stored: &[u8], at: usize, stop: usize) -> Option<Tested>
    requires { Lies stored.now at stop }
    ensures { Tests stored.now (One IsKey) at stop result }
{
    if is_field(stored, at, stop) {
        return named(stored, at, behind(stored, at));
    }
    None
}

// A scalar, whose field ends at `end`.
#[tactic(auto, using(crate::proofs::CycleLaws::leafing))]
fn scalar(stored: &[u8], at: usize, end: usize, allow: usize) -> Option<Tested>
    requires { Field stored.now at end × NoContainer stored.now at }
    ensures { Tests stored.now (One (Sane allow)) at end result }
{
    if scalar_text(stored, tag(stored, at), at + 3, end) {
        return Some(Tested { to: end, rows: 1 });
    }
    None
}

// A container whose n members are passed, with so many rows.
#[tactic(auto, using(crate::proofs::CycleLaws::closing))]
fn closed(
    stored: &[u8],
    at: usize,
    end: usize,
    allow: usize,
    object: bool,
    n: usize,
    rows: usize,
) -> Option<Tested>
    requires { Closing stored.now at end allow object n rows }
    ensures { Tests stored.now (One (Sane (suc allow))) at end result }
{
    if object && !apart(stored, at + 3, end, n) {
        return None;
    }
    Some(Tested {
        to: end,
        rows: rows + 1,
    })
}

// The cycle. A value before `stop`, with an allowance of containers one inside another.
#[tactic(auto, using(crate::proofs::CycleLaws::fielding))]
#[cycle(child_children_container_member_of_kind_pair_value)]
pub fn value(stored: &[u8], at: usize, stop: usize, allow: usize) -> Option<Tested>
    requires { Lies stored.now at stop }
    ensures { Tests stored.now (One (Sane allow)) at stop result }
{
    if is_field(stored, at, stop) {
        return of_kind(stored, at, behind(stored, at), allow);
    }
    None
}

// The same, but that a scalar, which most are, is tested outside of the cycle.
#[tactic(auto, using(crate::proofs::CycleLaws::fielding))]
#[cycle(child_children_container_member_of_kind_pair_value)]
fn member(stored: &[u8], at: usize, stop: usize, allow: usize) -> Option<Tested>
    requires { Lies stored.now at stop }
    ensures { Tests stored.now (One (Sane allow)) at stop result }
{
    if is_field(stored, at, stop) && stored[at] < 8 {
        return scalar(stored, at, behind(stored, at), allow);
    }
    value(stored, at, stop, allow)
}

// The same by the tag of its field, which ends at `end`.
#[tactic(auto, using(crate::proofs::CycleLaws::tagging))]
#[cycle(child_children_container_member_of_kind_pair_value)]
fn of_kind(stored: &[u8], at: usize, end: usize, allow: usize) -> Option<Tested>
    requires { Field stored.now at end }
    ensures { Tests stored.now (One (Sane allow)) at end result }
{
    match stored[at] {
        8 => container(stored, at, end, allow, false),
        9 => container(stored, at, end, allow, true),
        _ => scalar(stored, at, end, allow),
    }
}

// A container: its members have one container less allowed.
#[tactic(auto, using(crate::proofs::CycleLaws::containing))]
#[cycle(child_children_container_member_of_kind_pair_value)]
fn container(stored: &[u8], at: usize, end: usize, allow: usize, object: bool) -> Option<Tested>
    requires { Field stored.now at end × (get_or stored.now at 0 ≡ container_kind object) }
    ensures { Tests stored.now (One (Sane allow)) at end result }
{
    if allow == 0 {
        return None;
    }
    let m = children(stored, at + 3, end, allow - 1, object)?;
    closed(stored, at, end, allow - 1, object, m.count, m.rows)
}

// Its members, from `from` up to `end`: how many they are, and how many rows they have.
#[tactic(auto, using(crate::proofs::CycleLaws::going))]
#[cycle(child_children_container_member_of_kind_pair_value)]
fn children(stored: &[u8], from: usize, end: usize, allow: usize, object: bool) -> Option<Several>
    requires { Lies stored.now from end }
    ensures { Went stored.now object allow from end result }
{
    let mut at = from;
    let mut rows = 0;
    let mut n = 0;
    while at < end {
        let t = child(stored, at, end, allow, object)?;
        at = t.to;
        rows += t.rows;
        n += 1;
    }
    Some(Several { count: n, rows })
}

// An element, or a key and its value.
#[tactic(auto, using(crate::proofs::CycleLaws::childing))]
#[cycle(child_children_container_member_of_kind_pair_value)]
pub fn child(stored: &[u8], at: usize, stop: usize, allow: usize, object: bool) -> Option<Tested>
    requires { Lies stored.now at stop }
    ensures { Tests stored.now (Member object allow) at stop result }
{
    if object {
        return pair(stored, at, stop, allow);
    }
    member(stored, at, stop, allow)
}

// A key and its value.
#[tactic(auto, using(crate::proofs::CycleLaws::pairing))]
#[cycle(child_children_container_member_of_kind_pair_value)]
fn pair(stored: &[u8], at: usize, stop: usize, allow: usize) -> Option<Tested>
    requires { Lies stored.now at stop }
    ensures { Tests stored.now (Member true allow) at stop result }
{
    let k = key(stored, at, stop)?;
    let t = member(stored, k.to, stop, allow)?;
    Some(Tested {
        to: t.to,
        rows: t.rows + 1,
    })
}
