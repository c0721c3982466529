// One value over another, and one object over another: the lower's pairs in their order, then the upper's new ones.
// Stays (point 5): two tables with a row in each, the targets and the room of marks go one by one: rows, spot and marks are others at each call, and `lib.rt` says why no struct holds the targets.
ghost use Rattle.std.specs.Prelude.{◌≡◌, [], ◌∷◌, ◌+◌, ◌*◌, ◌≤◌, ◌<◌, length};
ghost use Rattle.std.proofs.lemmas.List.Edits.{sets};
ghost use Rattle.language.specs.Tree.{width, unlined, row_list, field, text_of};
ghost use Rattle.overlay.specs.Overlay.{pairs, value_of};
ghost use Rattle.lay.specs.Targets.{ceiling};
ghost use Rattle.lay.specs.Laying.{Two, Lays, Objects, Lowers, Lowered, News, Grew, Topping, Tops};
ghost use Rattle.lay.specs.Lowering.{Adding, Added};

use super::kept::kept;
use super::matched::{marked, refill};
use super::stores::put_row;
use super::{Clash, Grown, Lay, Spot, Table};
use rooms::Words;
use sound::word;

// So many keys at least have room at each level; of the rest each level takes half.
const LEAST: usize = 16;

// The upper's value at row s over the lower's at row r.
#[cycle(lay_lowers_object_pair)]
fn lay(
    lower: &Table,
    r: usize,
    upper: &Table,
    s: usize,
    parent: usize,
    rows: &mut [u32],
    room: &mut [u8],
    marks: &mut [u32],
    allow: usize,
    at: Spot,
) -> Lay
    requires { Two lower.now.rows.now lower.now.text.now r upper.now.rows.now upper.now.text.now s allow at × (16 * allow ≤ length marks.old) × (parent < ceiling) × (length marks.old < ceiling) }
    ensures { (h : Two lower.now.rows.now lower.now.text.now r upper.now.rows.now upper.now.text.now s allow at) → Lays h.under h.above parent at rows.old rows.new room.old room.new result }
{
    if word(lower.rows, r, 0) == 9 {
        if word(upper.rows, s, 0) == 9 {
            return object(lower, r, upper, s, parent, rows, room, marks, allow, at);
        }
        return Err(Clash);
    }
    if word(upper.rows, s, 0) == 9 {
        return Err(Clash);
    }
    Ok(kept(upper, s, parent, rows, room, at))
}

// The upper's object at row s over the lower's at row r. Its row is stored when the rows below it are.
#[cycle(lay_lowers_object_pair)]
pub fn object(
    lower: &Table,
    r: usize,
    upper: &Table,
    s: usize,
    parent: usize,
    rows: &mut [u32],
    room: &mut [u8],
    marks: &mut [u32],
    allow: usize,
    at: Spot,
) -> Lay
    requires { Objects lower.now.rows.now lower.now.text.now r upper.now.rows.now upper.now.text.now s allow at × (16 * allow ≤ length marks.old) × (parent < ceiling) × (length marks.old < ceiling) }
    ensures { (h : Objects lower.now.rows.now lower.now.text.now r upper.now.rows.now upper.now.text.now s allow at) → Lays h.two.under h.two.above parent at rows.old rows.new room.old room.new result }
{
    let row = at.row;
    let inner = Spot {
        row: row + 1,
        text: at.text,
    };
    let next = lowers(lower, r, upper, s, row, rows, room, marks, allow - 1, inner)?;
    let g = news(upper, s, lower, r, row, rows, room, marks, next, allow - 1);
    close(
        rows,
        row,
        word(lower.rows, r, 4) + g.count,
        parent,
        g.at.row,
    );
    Ok(g.at)
}

// The row of an object of so many pairs.
fn close(rows: &mut [u32], row: usize, pairs: usize, parent: usize, next: usize)
    requires { (row < ceiling) × (pairs < ceiling) × (parent < ceiling) × (next < ceiling) }
    ensures { rows.new ≡ sets rows.old (width * row) (row_list unlined 9 0 0 0 pairs parent next) }
{
    put_row(
        rows,
        row,
        Words {
            kind: 9,
            first: 0,
            after: 0,
            from: 0,
            to: pairs as u32,
            parent: parent as u32,
            next: next as u32,
        },
    );
}

// The lower's pairs, each with what the upper has for its key.
#[cycle(lay_lowers_object_pair)]
fn lowers(
    lower: &Table,
    r: usize,
    upper: &Table,
    s: usize,
    parent: usize,
    rows: &mut [u32],
    room: &mut [u8],
    marks: &mut [u32],
    allow: usize,
    at: Spot,
) -> Lay
    requires { Lowers lower.now.rows.now lower.now.text.now r upper.now.rows.now upper.now.text.now s allow at × (16 * allow + 16 ≤ length marks.old) × (parent < ceiling) × (length marks.old < ceiling) }
    ensures { (h : Lowers lower.now.rows.now lower.now.text.now r upper.now.rows.now upper.now.text.now s allow at) → Lowered (pairs h.both.under.tree) (pairs h.both.above.tree) parent at rows.old rows.new room.old room.new result }
{
    let stop = word(lower.rows, r, 6);
    let most = (marks.len() - LEAST * allow) / 2 + LEAST / 2;
    let mut q = r + 1;
    let mut left = 0..0;
    let mut y = at;
    while q < stop {
        left = refill(lower, q, stop, upper, s, marks, most, left);
        let m = marked(marks, left.start);
        y = pair(
            lower,
            q,
            upper,
            m,
            parent,
            rows,
            room,
            &mut marks[left.end..],
            allow,
            y,
        )?;
        q = word(lower.rows, q + 1, 6);
        left.start += 1;
    }
    Ok(y)
}

// The pair of the lower's key at row q; m is the row of that key in the upper.
#[cycle(lay_lowers_object_pair)]
fn pair(
    lower: &Table,
    q: usize,
    upper: &Table,
    m: Option<usize>,
    parent: usize,
    rows: &mut [u32],
    room: &mut [u8],
    marks: &mut [u32],
    allow: usize,
    at: Spot,
) -> Lay
    requires { Topping lower.now.rows.now lower.now.text.now q upper.now.rows.now upper.now.text.now m allow at × (16 * allow ≤ length marks.old) × (parent < ceiling) × (length marks.old < ceiling) }
    ensures { (h : Topping lower.now.rows.now lower.now.text.now q upper.now.rows.now upper.now.text.now m allow at) → Tops h.key h.val (value_of (text_of h.key) h.gs) parent at rows.old rows.new room.old room.new result }
{
    let y = kept(lower, q, parent, rows, room, at);
    match m {
        Some(key) => lay(
            lower,
            q + 1,
            upper,
            key + 1,
            parent,
            rows,
            room,
            marks,
            allow,
            y,
        ),
        None => Ok(kept(lower, q + 1, parent, rows, room, y)),
    }
}

// The upper's pairs of keys that the lower has not.
fn news(
    upper: &Table,
    s: usize,
    lower: &Table,
    r: usize,
    parent: usize,
    rows: &mut [u32],
    room: &mut [u8],
    marks: &mut [u32],
    at: Spot,
    allow: usize,
) -> Grown
    requires { News upper.now.rows.now upper.now.text.now s lower.now.rows.now lower.now.text.now r allow at × (0 < length marks.old) × (parent < ceiling) × (length marks.old < ceiling) }
    ensures { (h : News upper.now.rows.now upper.now.text.now s lower.now.rows.now lower.now.text.now r allow at) → Grew (pairs h.both.under.tree) (pairs h.both.above.tree) parent at result rows.old rows.new room.old room.new }
{
    let stop = word(upper.rows, s, 6);
    let most = marks.len();
    let mut q = s + 1;
    let mut left = 0..0;
    let mut g = Grown { at, count: 0 };
    while q < stop {
        left = refill(upper, q, stop, lower, r, marks, most, left);
        let m = marked(marks, left.start);
        g = new_pair(upper, q, m, parent, rows, room, g);
        q = word(upper.rows, q + 1, 6);
        left.start += 1;
    }
    g
}

// The pair of the upper's key at row q, if it is new; m is the row of that key in the lower.
fn new_pair(
    upper: &Table,
    q: usize,
    m: Option<usize>,
    parent: usize,
    rows: &mut [u32],
    room: &mut [u8],
    g: Grown,
) -> Grown
    requires { Adding upper.now.rows.now upper.now.text.now q m g × (parent < ceiling) }
    ensures { (h : Adding upper.now.rows.now upper.now.text.now q m g) → Added h.fs (field h.key h.val ∷ []) parent g result rows.old rows.new room.old room.new }
{
    if m.is_some() {
        return g;
    }
    let count = g.count + 1;
    let y = kept(upper, q, parent, rows, room, g.at);
    Grown {
        at: kept(upper, q + 1, parent, rows, room, y),
        count,
    }
}
