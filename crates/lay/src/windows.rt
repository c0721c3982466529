// A window of keys of one object, and the keys of another, each sought in it: near linear, whatever the keys.
// Stays (points 5, 6): the rooms of a window and how many keys are in them go as parameters, as `distinct` takes them: rooms have a fixed size, since there is no heap. A struct that holds the `&mut` slices would need a clause in every contract that it still holds the same ones.
ghost use Rattle.std.specs.Prelude.{◌≤◌, ◌<◌, length};
ghost use Rattle.distinct.specs.Window.{Rooms};
ghost use Rattle.sound.specs.Keys.{text_at};
ghost use Rattle.sound.specs.Pairwise.{Named};
ghost use Rattle.lay.specs.Matching.{Match, Matched};
ghost use Rattle.lay.specs.Gathering.{Pairing, Space, Zeros, Gathered};
ghost use Rattle.lay.specs.Windows.{Ready, Sighted, Probe, Probed, Window, Tried, Ranking, Marked};

use super::Table;
use distinct::{chained_all, ranked_all};
use repeats::TooLong;
use sound::{key_in_chains, key_in_order, word};

// The places of the texts of the keys from q on, `most` of them at most, with no marks yet: how many they are.
#[tactic(auto, using(crate::specs::Gathering::gathers))]
fn gather(
    table: &Table,
    froms: &mut [u32],
    tos: &mut [u32],
    marks: &mut [u32],
    q: usize,
    end: usize,
    most: usize,
) -> usize
    requires { Pairing table.now.rows.now table.now.text.now q end × Space froms.old tos.old marks.old most }
    ensures { Gathered table.now.rows.now table.now.text.now q end froms.new tos.new marks.new most result }
{
    let mut r = q;
    let mut n = 0;
    while r < end {
        if n == most {
            return n;
        }
        froms[n] = word(table.rows, r, 3) as u32;
        tos[n] = word(table.rows, r, 4) as u32;
        marks[n] = 0;
        n += 1;
        r = word(table.rows, r + 1, 6);
    }
    n
}

// Which of the n keys has the text of row q of some table: in order if they are ranked, else in chains.
#[tactic(auto, using(crate::specs::Windows::sighting))]
fn seek(
    text: &[u8],
    froms: &[u32],
    tos: &[u32],
    heads: &[u16],
    links: &[u16],
    n: usize,
    other: &Table,
    q: usize,
    ranked: bool,
) -> Result<Option<usize>, TooLong>
    requires { Ready text.now froms.now tos.now heads.now links.now n ranked × Named other.now.rows.now other.now.text.now q }
    ensures { Sighted text.now froms.now tos.now n (text_at other.now.rows.now other.now.text.now q) ranked result }
{
    if ranked {
        return Ok(key_in_order(text, froms, tos, links, n, other.rows, other.text, q).ok());
    }
    key_in_chains(text, froms, tos, heads, links, n, other.rows, other.text, q)
}

// Each key of the other object is sought among the n, and marks the one that has its text; whether no chain was too long.
#[tactic(auto, using(crate::specs::Windows::probing))]
fn probed(
    text: &[u8],
    froms: &[u32],
    tos: &[u32],
    heads: &[u16],
    links: &[u16],
    n: usize,
    other: &Table,
    from: usize,
    stop: usize,
    marks: &mut [u32],
    ranked: bool,
) -> bool
    requires { Probe text.now froms.now tos.now heads.now links.now n other.now.rows.now other.now.text.now from stop marks.old ranked }
    ensures { Probed text.now froms.now tos.now n other.now.rows.now other.now.text.now from stop marks.new ranked result }
{
    let mut r = from;
    while r < stop {
        match seek(text, froms, tos, heads, links, n, other, r, ranked) {
            Ok(Some(k)) => {
                marks[k] = r as u32;
                r = word(other.rows, r + 1, 6);
            }
            Ok(None) => r = word(other.rows, r + 1, 6),
            Err(_) => return false,
        }
    }
    true
}

// The marks of the n keys of a window, in chains; whether none was too long.
#[tactic(auto, using(crate::specs::Windows::chainwise))]
fn chain_matches(
    text: &[u8],
    froms: &[u32],
    tos: &[u32],
    heads: &mut [u16],
    links: &mut [u16],
    n: usize,
    other: &Table,
    from: usize,
    stop: usize,
    marks: &mut [u32],
) -> bool
    requires { Window text.now froms.now tos.now heads.old links.old n other.now.rows.now other.now.text.now from stop marks.old }
    ensures { Tried text.now froms.now tos.now n other.now.rows.now other.now.text.now from stop marks.new result }
{
    match chained_all(text, froms, tos, heads, links, n) {
        Ok(false) => probed(
            text, froms, tos, heads, links, n, other, from, stop, marks, false,
        ),
        _ => false,
    }
}

// The same in the order of their texts.
#[tactic(auto, using(crate::specs::Windows::rankwise))]
fn rank_matches(
    text: &[u8],
    froms: &[u32],
    tos: &[u32],
    heads: &[u16],
    order: &mut [u16],
    n: usize,
    other: &Table,
    from: usize,
    stop: usize,
    marks: &mut [u32],
)
    requires { Ranking text.now froms.now tos.now order.old n other.now.rows.now other.now.text.now from stop marks.old }
    ensures { Marked text.now froms.now tos.now n other.now.rows.now other.now.text.now from stop marks.new }
{
    marks[..n].fill(0);
    ranked_all(text, froms, tos, order, n);
    probed(
        text, froms, tos, heads, order, n, other, from, stop, marks, true,
    );
}

// The same in the one way, or where a chain is too long in the other.
#[tactic(auto, using(crate::specs::Windows::bothwise))]
fn window_matches(
    text: &[u8],
    froms: &[u32],
    tos: &[u32],
    heads: &mut [u16],
    links: &mut [u16],
    n: usize,
    other: &Table,
    from: usize,
    stop: usize,
    marks: &mut [u32],
)
    requires { Window text.now froms.now tos.now heads.old links.old n other.now.rows.now other.now.text.now from stop marks.old }
    ensures { Marked text.now froms.now tos.now n other.now.rows.now other.now.text.now from stop marks.new }
{
    if !chain_matches(text, froms, tos, heads, links, n, other, from, stop, marks) {
        rank_matches(text, froms, tos, heads, links, n, other, from, stop, marks);
    }
}

// The marks of the keys from row q on, `most` of them at most, over rooms with nothing in them: how many they are.
#[tactic(auto, using(crate::specs::Windows::windowing))]
fn window(
    table: &Table,
    q: usize,
    end: usize,
    other: &Table,
    s: usize,
    marks: &mut [u32],
    most: usize,
    froms: &mut [u32],
    tos: &mut [u32],
    heads: &mut [u16],
    links: &mut [u16],
) -> usize
    requires { Match table.now.rows.now table.now.text.now q end other.now.rows.now other.now.text.now s × (0 < most) × (most ≤ length marks.old) × Rooms froms.old tos.old heads.old links.old }
    ensures { Matched table.now.rows.now table.now.text.now q end other.now.rows.now other.now.text.now s marks.new most result }
{
    let stop = word(other.rows, s, 6);
    let room = most.min(froms.len());
    let n = gather(table, froms, tos, marks, q, end, room);
    window_matches(
        table.text,
        froms,
        tos,
        heads,
        links,
        n,
        other,
        s + 1,
        stop,
        marks,
    );
    n
}

// The same in rooms for N keys. It is put into no caller, whose frame would hold the rooms.
#[inline(never)]
pub fn window_of<const N: usize>(
    table: &Table,
    q: usize,
    end: usize,
    other: &Table,
    s: usize,
    marks: &mut [u32],
    most: usize,
) -> usize
    requires { Match table.now.rows.now table.now.text.now q end other.now.rows.now other.now.text.now s × (0 < most) × (most ≤ length marks.old) × (0 < N) × (N ≤ 8192) }
    ensures { Matched table.now.rows.now table.now.text.now q end other.now.rows.now other.now.text.now s marks.new most result }
{
    let mut froms = [0u32; N];
    let mut tos = [0u32; N];
    let mut heads = [0u16; 4096];
    let mut links = [0u16; N];
    window(
        table, q, end, other, s, marks, most, &mut froms, &mut tos, &mut heads, &mut links,
    )
}
