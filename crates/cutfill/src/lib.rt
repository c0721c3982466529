// The rooms are filled from a content that is cut: fields that stand whole in a run are filled as those of a short file, the others by views of what is inside them.
// Stays (point 5): the rooms lent, and the row and the text byte that come next, go as parameters. A struct that holds the `&mut` slices would need a clause in every contract that it still holds the same ones.
#![tactic(auto)]

ghost use Rattle.std.specs.Prelude.{◌≡◌, ◌+◌, ◌-◌, ◌*◌, ◌≤◌, ◌<◌, length};
ghost use Rattle.std.proofs.lemmas.List.Edits.{sets};
ghost use Rattle.exact.specs.Tells.{Tells};
ghost use Rattle.language.specs.Tree.{width, unlined, row_list};
ghost use Rattle.views.specs.Views.{place_of};
ghost use Rattle.uncut.specs.Short.{longest};
ghost use Rattle.uncut.specs.Filling.{members_of};
ghost use Rattle.cutfill.specs.Wholes.{Chain, Run};
ghost use Rattle.cutfill.specs.Trees.{Container};
ghost use Rattle.cutfill.specs.Filling.{Rowed, Passes, FillCut, FillRoom, FillOne, FillLeaf, FillNode, FillRoot, Fills, Passed, Steps, FilledRooms};
ghost use Rattle.cutfill.specs.Placed.{places};

use language::Kind;
use rooms::{put_row, row_of};
use uncut::{behind, is_field};
use views::{LEVELS, Reach, Span, View, deeper, extent, place};
use wide::{near, text_of};

// Where filling has come to: the place of the content, the row and the text byte behind what is filled, and how many fields that are. Rows are told the row of their parent, `up`.
#[derive(Clone, Copy, PartialEq, Eq, Debug)]
pub struct Came {
    at: usize,
    row: usize,
    text: usize,
    count: usize,
}

// The row r of the field from one place of a content up to another.
fn row_at(
    v: View,
    at: usize,
    end: usize,
    table: &mut [u32],
    r: usize,
    tag: usize,
    up: usize,
    from: usize,
    to: usize,
    next: usize,
)
    requires { Rowed v.starts.now v.d at end r tag up from to next }
    ensures { table.new ≡ sets table.old (width * r) (row_list unlined tag (place_of v.entry.starts.now v.entry.d at) (place_of v.entry.starts.now v.entry.d (end - 1) + 1) from to up next) }
{
    let w = row_of(
        Kind(tag as u32),
        place(v.starts, v.d, at),
        place(v.starts, v.d, end - 1) + 1,
        from,
        to,
        up as u32,
        next,
    );
    put_row(table, r, w);
}

// The place behind the fields that stand whole in a run, from its beginning on.
fn whole_end(run: &[u8]) -> usize
    requires { length run.now ≤ longest }
    ensures { Chain run.now result }
{
    let mut e = 0;
    while is_field(run, e, run.len()) {
        e = behind(run, e);
    }
    e
}

// The fields of a content that stand whole from a place on before the nearest cut: where they stand, and how many bytes they have.
fn whole(v: View, at: usize) -> Reach
    requires { at ≤ v.n }
    ensures { Run v.entry.stored.now v.entry.starts.now v.entry.d at v.entry.n result.place result.left }
{
    let w = near(v, at);
    Reach {
        place: w.place,
        left: whole_end(&v.stored[w.place..w.place + w.left]),
    }
}

// Those fields.
fn passed(
    stored: &[u8],
    w: Reach,
    at: usize,
    table: &mut [u32],
    text: &mut [u8],
    r: usize,
    up: usize,
    x: usize,
) -> Came
    requires { Passes stored.now w.place w.left at (length text.old) r up x }
    ensures { Passed stored.now w.place w.left at r up x result.at result.row result.text result.count table.old table.new text.old text.new }
{
    let run = &stored[w.place..w.place + w.left];
    let f = uncut::children(run, w.place, 0, w.left, table, text, r, up, x);
    Came {
        at: at + w.left,
        row: f.row,
        text: f.text,
        count: f.count,
    }
}

// Whether a tag is a container's.
fn is_container(tag: usize) -> bool
    ensures { Tells (Container tag) result }
{
    matches!(tag, 8..=9)
}

// The count of a container's members: an object's are two children each.
fn members(tag: usize, n: usize) -> usize
    ensures { result ≡ members_of tag n }
{
    if tag == 9 { n / 2 } else { n }
}

// A scalar or a key. Kinds 1 to 3 have no text.
fn leaf(
    v: View,
    at: usize,
    f: Span,
    table: &mut [u32],
    text: &mut [u8],
    r: usize,
    up: usize,
    x: usize,
) -> Came
    requires { FillLeaf v.stored.now v.starts.now v.d (length text.old) at f.tag f.bytes f.end r up x }
    ensures { (h : FillOne v.entry.stored.now v.entry.starts.now v.entry.d at f.tag f.bytes f.end r up x) → Steps v.entry.starts.now v.entry.d h.asked.trees at r up x result.at result.row result.text result.count table.old table.new text.old text.new }
{
    if f.tag < 4 {
        row_at(v, at, f.end, table, r, f.tag, up, 0, 0, r + 1);
        return Came {
            at: f.end,
            row: r + 1,
            text: x,
            count: 1,
        };
    }
    let y = x + f.bytes;
    row_at(v, at, f.end, table, r, f.tag, up, x, y, r + 1);
    let s = deeper(v.starts, v.d, at);
    let content = View {
        stored: v.stored,
        starts: &s,
        d: v.d + 1,
        n: f.bytes,
    };
    text_of(content, text, x);
    Came {
        at: f.end,
        row: r + 1,
        text: y,
        count: 1,
    }
}

// The cycle. A container: its children, and then its own row.
#[cycle(children_container_some_fields)]
fn container(
    v: View,
    at: usize,
    f: Span,
    table: &mut [u32],
    text: &mut [u8],
    r: usize,
    up: usize,
    x: usize,
) -> Came
    requires { FillNode v.stored.now v.starts.now v.d (length text.old) at f.tag f.bytes f.end r up x }
    ensures { (h : FillOne v.entry.stored.now v.entry.starts.now v.entry.d at f.tag f.bytes f.end r up x) → Steps v.entry.starts.now v.entry.d h.asked.trees at r up x result.at result.row result.text result.count table.old table.new text.old text.new }
{
    let s = deeper(v.starts, v.d, at);
    let content = View {
        stored: v.stored,
        starts: &s,
        d: v.d + 1,
        n: f.bytes,
    };
    let c = children(content, table, text, r + 1, r, x);
    let n = members(f.tag, c.count);
    row_at(v, at, f.end, table, r, f.tag, up, 0, n, c.row);
    Came {
        at: f.end,
        row: c.row,
        text: c.text,
        count: 1,
    }
}

// Fields of a content from a place on: those that stand whole before the nearest cut, or one that does not.
#[cycle(children_container_some_fields)]
fn some_fields(
    v: View,
    at: usize,
    table: &mut [u32],
    text: &mut [u8],
    r: usize,
    up: usize,
    x: usize,
) -> Came
    requires { (at < v.n) × FillRoom v.stored.now v.starts.now v.d (length text.old) at v.n r up x }
    ensures { (h : FillCut v.entry.stored.now v.entry.starts.now v.entry.d at v.entry.n r up x) → Steps v.entry.starts.now v.entry.d h.trees at r up x result.at result.row result.text result.count table.old table.new text.old text.new }
{
    let w = whole(v, at);
    if 0 < w.left {
        return passed(v.stored, w, at, table, text, r, up, x);
    }
    match extent(v, at) {
        None => Came {
            at: v.n,
            row: r,
            text: x,
            count: 0,
        },
        Some(f) => {
            if is_container(f.tag) {
                return container(v, at, f, table, text, r, up, x);
            }
            leaf(v, at, f, table, text, r, up, x)
        }
    }
}

// The fields of a content.
#[cycle(children_container_some_fields)]
fn children(v: View, table: &mut [u32], text: &mut [u8], r: usize, up: usize, x: usize) -> Came
    requires { FillRoom v.stored.now v.starts.now v.d (length text.old) 0 v.n r up x }
    ensures { (h : FillCut v.entry.stored.now v.entry.starts.now v.entry.d 0 v.entry.n r up x) → Fills h.trees (places v.entry.starts.now v.entry.d 0) r up x result.row result.text result.count table.old table.new text.old text.new }
{
    let mut at = 0;
    let mut row = r;
    let mut y = x;
    let mut n = 0;
    while at < v.n {
        let f = some_fields(v, at, table, text, row, up, y);
        at = f.at;
        row = f.row;
        y = f.text;
        n += f.count;
    }
    Came {
        at,
        row,
        text: y,
        count: n,
    }
}

// The whole: the root is row 0, and its own parent.
pub fn fill(stored: &[u8], table: &mut [u32], text: &mut [u8])
    requires { FillRoot stored.now (length text.old) }
    ensures { (h : FillRoot stored.now (length text.old)) → FilledRooms h.tree table.old table.new text.old text.new }
{
    let starts = [0u32; LEVELS];
    let v = View {
        stored,
        starts: &starts,
        d: 0,
        n: stored.len(),
    };
    children(v, table, text, 0, 0, 0);
}
