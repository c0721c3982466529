// The keys of an object whose content is cut: whether no two have one text.
#![tactic(auto)]

ghost use Rattle.std.specs.Prelude.{◌<◌};
ghost use Rattle.views.specs.Contents.{all};
ghost use Rattle.wide.specs.Keys.{Counted, ApartTold};

mod after;
mod copies;
mod cuts;
mod keys;
mod windows;

use cuts::cut_apart;
use views::View;
use windows::windows;

// Whether no two keys of a content have one text; it has `members` of them.
#[tactic(auto, using(crate::specs::Apart::telling))]
pub fn apart(v: View, members: usize) -> bool
    requires { (v.d < 34) × Counted (all v) v.n members }
    ensures { ApartTold (all v.entry) v.entry.n result }
{
    windows(v, members) && cut_apart(v)
}
