// Contents that are cut: what testing one gives, the bytes that stand before the nearest cut, and a copy of one.
#![tactic(auto)]

ghost use Rattle.std.specs.Prelude.{◌≡◌, ◌+◌, ◌≤◌, length};
ghost use Rattle.std.proofs.lemmas.List.Edits.{sets};
ghost use Rattle.views.specs.Contents.{bytes_of};
ghost use Rattle.wide.specs.Near.{Nearest};

use fields::part;
use stored::WIDEST;
use views::{Reach, View, run};

// What testing a content gives where a tree has it: the place behind the fields, or the count of members, with the count of their rows and of their text bytes.
#[derive(Clone, Copy, PartialEq, Eq, Debug)]
pub struct Walked {
    pub to: usize,
    pub rows: usize,
    pub bytes: usize,
}

// The bytes from a place of a content on that stand before the nearest cut, and before its end: few enough to be one field's.
pub fn near(v: View, at: usize) -> Reach
    requires { at ≤ v.n }
    ensures { Nearest v.entry at result }
{
    if at == v.n {
        return Reach { place: 0, left: 0 };
    }
    run(v.starts, v.d, at, WIDEST.min(v.n - at))
}

// The bytes of a content, stored from x on.
pub fn text_of(v: View, text: &mut [u8], x: usize)
    requires { x + v.n ≤ length text.old }
    ensures { text.new ≡ sets text.old x (bytes_of v.entry) }
{
    let mut i = 0;
    while i < v.n {
        let r = run(v.starts, v.d, i, v.n - i);
        part(v.stored, r.place, r.place + r.left, text, x + i);
        i += r.left;
    }
}
