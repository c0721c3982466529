// Keys that stand whole, from a place on, each sought in a window of others: whether one has the text of one of the n there, which stand in `text`.
// Stays (points 5, 6): the rooms of a window and its count go as parameters, since `distinct` takes them so. A struct of them would be taken apart again for each call.
ghost use Rattle.std.specs.Prelude.{◌≤◌, length};
ghost use Rattle.distinct.specs.Names.{Held};
ghost use Rattle.distinct.specs.Chains.{InChains};
ghost use Rattle.distinct.specs.Ranks.{InOrder};
ghost use Rattle.distinct.specs.Window.{TouchedLooked, TouchedTold, ClashTold};
ghost use Rattle.distinct.specs.Windows.{Open};
ghost use Rattle.cutkeys.specs.Content.{wholes_of};

use super::keys::{UNKNOWN, seek};
use distinct::{in_chains, in_order, ranked_all};
use repeats::TooLong;
use views::View;

// In their chains.
#[tactic(auto, using(crate::proofs::WholeLaws::finding, distinct::specs::Windows::trailing))]
pub fn chained_behind(
    v: View,
    text: &[u8],
    froms: &[u32],
    tos: &[u32],
    heads: &[u16],
    links: &[u16],
    n: usize,
    from: usize,
) -> Result<bool, TooLong>
    requires { InChains text.now froms.now tos.now heads.now links.now n × Open (wholes_of v) from }
    ensures { TouchedLooked (wholes_of v.entry) text.now froms.now tos.now n from result }
{
    let mut found = seek(v, from, UNKNOWN);
    while let Some(k) = found {
        let t = k.text;
        if in_chains(text, froms, tos, heads, links, n, v.stored, t.from, t.to)?.is_some() {
            return Ok(true);
        }
        found = seek(v, k.next, k.reach);
    }
    Ok(false)
}

// In their order.
#[tactic(auto, using(crate::proofs::WholeLaws::finding, distinct::specs::Windows::trailing))]
pub fn ranked_behind(
    v: View,
    text: &[u8],
    froms: &[u32],
    tos: &[u32],
    order: &[u16],
    n: usize,
    from: usize,
) -> bool
    requires { InOrder text.now froms.now tos.now order.now n × Open (wholes_of v) from }
    ensures { TouchedTold (wholes_of v.entry) text.now froms.now tos.now n from result }
{
    let mut found = seek(v, from, UNKNOWN);
    while let Some(k) = found {
        let t = k.text;
        if in_order(text, froms, tos, order, n, v.stored, t.from, t.to).is_ok() {
            return true;
        }
        found = seek(v, k.next, k.reach);
    }
    false
}

// Whether two keys have one text, of which one is in the window, by the order of their texts.
pub fn by_ranks(
    v: View,
    text: &[u8],
    froms: &[u32],
    tos: &[u32],
    order: &mut [u16],
    n: usize,
    next: usize,
) -> bool
    requires { Held text.now froms.now tos.now n × (n ≤ length order.old) × Open (wholes_of v) next }
    ensures { ClashTold (wholes_of v.entry) text.now froms.now tos.now n next result }
{
    ranked_all(text, froms, tos, order, n) || ranked_behind(v, text, froms, tos, order, n, next)
}
