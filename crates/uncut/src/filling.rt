// The rooms are filled from stored bytes that are a stored form, or stand from a place on in those of one: a row for each field, in the order of their tags.
// Stays (point 5): the rooms go as parameters, since they are lent to each call in turn: a struct that holds `&mut` slices would need a clause in every contract that it still holds the same ones.
ghost use Rattle.std.specs.Prelude.{◌≡◌, ◌+◌, ◌*◌, ◌<◌, length, get_or};
ghost use Rattle.std.proofs.lemmas.List.Edits.{sets};
ghost use Rattle.exact.specs.Tells.{Tells};
ghost use Rattle.language.specs.Tree.{width, unlined, row_list};
ghost use Rattle.uncut.specs.Filling.{members_of, Placing, Container, Fill, FillAt, FillLeaf, FillNode, FillAll, FillRoom, FillRoot, Fills, FillsAll, FilledRooms};

use super::heads::{behind, tag};
use fields::part;
use rooms::{put_row, row_of};

// Where filling has come to: the row and the text byte behind what is filled.
#[derive(Clone, Copy)]
pub struct Filled {
    row: usize,
    text: usize,
}

// The same behind a container's children, and how many they are.
#[derive(Clone, Copy)]
pub struct FilledAll {
    pub row: usize,
    pub text: usize,
    pub count: usize,
}

// The row r of the field at a place.
#[tactic(auto, using(crate::proofs::FillLaws::placing))]
fn place(
    stored: &[u8],
    base: usize,
    at: usize,
    end: usize,
    table: &mut [u32],
    r: usize,
    parent: usize,
    from: usize,
    to: usize,
    next: usize,
)
    requires { Placing (length stored.now) base at end r parent from to next }
    ensures { table.new ≡ sets table.old (width * r) (row_list unlined (get_or stored.now at 0) (base + at) (base + end) from to parent next) }
{
    let w = row_of(
        tag(stored, at),
        base + at,
        base + end,
        from,
        to,
        parent as u32,
        next,
    );
    put_row(table, r, w);
}

// A scalar or a key, whose field ends at `end`; the text byte behind it. Kinds 1 to 3 have no text.
#[tactic(auto, using(crate::proofs::FillLaws::leaf_filling))]
fn leaf(
    stored: &[u8],
    base: usize,
    at: usize,
    end: usize,
    table: &mut [u32],
    text: &mut [u8],
    r: usize,
    parent: usize,
    x: usize,
) -> usize
    requires { FillLeaf stored.now (length text.old) base at end r parent x }
    ensures { (h : FillAt stored.now base at r parent x) → Fills h.tree (base + at) r parent x (r + 1) result table.old table.new text.old text.new }
{
    if stored[at] < 4 {
        place(stored, base, at, end, table, r, parent, 0, 0, r + 1);
        return x;
    }
    let y = x + (end - (at + 3));
    place(stored, base, at, end, table, r, parent, x, y, r + 1);
    part(stored, at + 3, end, text, x);
    y
}

// Whether the field at a place is a container's.
#[tactic(auto, using(crate::proofs::FillLaws::telling_containers))]
fn is_container(stored: &[u8], at: usize) -> bool
    requires { at < length stored.now }
    ensures { Tells (Container stored.now at) result }
{
    matches!(stored[at], 8 | 9)
}

// The count of a container's members: an object's are two children each.
#[tactic(auto, using(crate::proofs::FillLaws::membering))]
fn members(stored: &[u8], at: usize, n: usize) -> usize
    requires { at < length stored.now }
    ensures { result ≡ members_of (get_or stored.now at 0) n }
{
    if stored[at] == 9 { n / 2 } else { n }
}

// The cycle. A container, whose field ends at `end`: its children, and then its own row.
#[cycle(children_container)]
fn container(
    stored: &[u8],
    base: usize,
    at: usize,
    end: usize,
    table: &mut [u32],
    text: &mut [u8],
    r: usize,
    parent: usize,
    x: usize,
) -> Filled
    requires { FillNode stored.now (length text.old) base at end r parent x }
    ensures { (h : FillAt stored.now base at r parent x) → Fills h.tree (base + at) r parent x result.row result.text table.old table.new text.old text.new }
{
    let f = children(stored, base, at + 3, end, table, text, r + 1, r, x);
    let n = members(stored, at, f.count);
    place(stored, base, at, end, table, r, parent, 0, n, f.row);
    Filled {
        row: f.row,
        text: f.text,
    }
}

// Its children, from `from` up to `stop`. Leaves are filled outside of the cycle, since they are many.
#[cycle(children_container)]
pub fn children(
    stored: &[u8],
    base: usize,
    from: usize,
    stop: usize,
    table: &mut [u32],
    text: &mut [u8],
    r: usize,
    parent: usize,
    x: usize,
) -> FilledAll
    requires { FillRoom stored.now (length text.old) base from stop r parent x }
    ensures { (h : FillAll stored.now base from stop r parent x) → FillsAll h.trees (base + from) r parent x result.row result.text result.count table.old table.new text.old text.new }
{
    let mut at = from;
    let mut row = r;
    let mut y = x;
    let mut n = 0;
    while at < stop {
        let end = behind(stored, at);
        if is_container(stored, at) {
            let f = container(stored, base, at, end, table, text, row, parent, y);
            row = f.row;
            y = f.text;
        } else {
            y = leaf(stored, base, at, end, table, text, row, parent, y);
            row += 1;
        }
        at = end;
        n += 1;
    }
    FilledAll {
        row,
        text: y,
        count: n,
    }
}

// The whole: the root is row 0, and its own parent.
pub fn fill(stored: &[u8], table: &mut [u32], text: &mut [u8])
    requires { FillRoot stored.now (length text.old) }
    ensures { (h : Fill stored.now 0 0 0 0) → FilledRooms h.tree table.old table.new text.old text.new }
{
    children(stored, 0, 0, stored.len(), table, text, 0, 0, 0);
}
