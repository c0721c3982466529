// A key or a value that is kept, with all that is below it.
// Stays (point 5): targets and a spot in them go as three parameters, as `lib.rt` says why.
ghost use Rattle.std.specs.Prelude.{◌≡◌, ◌+◌, ◌*◌, ◌<◌};
ghost use Rattle.std.proofs.lemmas.List.Edits.{sets};
ghost use Rattle.language.specs.Tree.{width, unlined, size, row_list};
ghost use Rattle.language.specs.Alike.{unspan, unspans};
ghost use Rattle.lay.specs.Targets.{ceiling, Stored, alone};
ghost use Rattle.lay.specs.Keeping.{Keep, Keeps, Headed, Spelling, Spelt, Storing};

use super::stores::{copy, put_row};
use super::{Spot, Table};
use language::Kind;
use rooms::Words;
use sound::word;

// The text of row r, stored from x on: the byte behind it.
#[tactic(auto, using(crate::specs::Keeping::spelling))]
fn spell(table: &Table, r: usize, room: &mut [u8], x: usize) -> usize
    requires { Spelling table.now.rows.now table.now.text.now r x }
    ensures { ((h : Spelling table.now.rows.now table.now.text.now r x) → Spelt h.tree x result room.old room.new) × (result < ceiling) }
{
    let from = word(table.rows, r, 3);
    let to = word(table.rows, r, 4);
    copy(table.text, from, to, room, x);
    x + (to - from)
}

// The words of row r of a table, with these, for the row `row` of the targets.
#[tactic(auto, using(crate::specs::Keeping::rowing))]
fn store(
    table: &[u32],
    r: usize,
    rows: &mut [u32],
    row: usize,
    kind: usize,
    from: usize,
    to: usize,
    parent: usize,
)
    requires { Storing table.now r row × (kind < ceiling) × (from < ceiling) × (to < ceiling) × (parent < ceiling) }
    ensures { (h : Storing table.now r row) → rows.new ≡ sets rows.old (width * row) (row_list unlined kind 0 0 from to parent (row + size h.tree)) }
{
    let next = row + (word(table, r, 6) - r);
    put_row(
        rows,
        row,
        Words {
            kind: kind as u32,
            first: 0,
            after: 0,
            from: from as u32,
            to: to as u32,
            parent: parent as u32,
            next: next as u32,
        },
    );
}

// The row r alone, with its text: the text byte behind it.
#[tactic(auto, using(crate::specs::Keeping::heading))]
fn head(
    table: &Table,
    r: usize,
    parent: usize,
    rows: &mut [u32],
    room: &mut [u8],
    at: Spot,
) -> usize
    requires { Keep table.now.rows.now table.now.text.now r at × (parent < ceiling) }
    ensures { ((h : Keep table.now.rows.now table.now.text.now r at) → Headed h.tree parent at result rows.old rows.new room.old room.new) × (result < ceiling) }
{
    let kind = word(table.rows, r, 0);
    if Kind(kind as u32).has_text() {
        let end = spell(table, r, room, at.text);
        store(table.rows, r, rows, at.row, kind, at.text, end, parent);
        return end;
    }
    let to = word(table.rows, r, 4);
    store(table.rows, r, rows, at.row, kind, 0, to, parent);
    at.text
}

// The row r and those below it.
#[cycle(kept_kepts)]
pub fn kept(
    table: &Table,
    r: usize,
    parent: usize,
    rows: &mut [u32],
    room: &mut [u8],
    at: Spot,
) -> Spot
    requires { Keep table.now.rows.now table.now.text.now r at × (parent < ceiling) }
    ensures { (h : Keep table.now.rows.now table.now.text.now r at) → Stored parent (alone (unspan h.tree)) at result rows.old rows.new room.old room.new }
{
    let row = at.row;
    let text = head(table, r, parent, rows, room, at);
    let next = word(table.rows, r, 6);
    kepts(
        table,
        r + 1,
        next,
        row,
        rows,
        room,
        Spot { row: row + 1, text },
    )
}

// The rows from `from` up to `stop`.
#[cycle(kept_kepts)]
fn kepts(
    table: &Table,
    from: usize,
    stop: usize,
    parent: usize,
    rows: &mut [u32],
    room: &mut [u8],
    at: Spot,
) -> Spot
    requires { Keeps table.now.rows.now table.now.text.now from stop at × (parent < ceiling) }
    ensures { (h : Keeps table.now.rows.now table.now.text.now from stop at) → Stored parent (unspans h.trees) at result rows.old rows.new room.old room.new }
{
    let mut r = from;
    let mut y = at;
    while r < stop {
        y = kept(table, r, parent, rows, room, y);
        r = word(table.rows, r, 6);
    }
    y
}
