// The row of a block.
ghost use Rattle.std.specs.Prelude.{◌+◌};
ghost use Rattle.rooms.specs.Told.{spot};
ghost use Rattle.rooms.specs.Contract.{Small};
ghost use Rattle.blocktext.specs.Leaves.{Rowed};

use language::Kind;
use rooms::{Block, Cursor, put_row, row_of};

// The row of a leaf from the cursor up to `at`, whose span ends at e and whose text, with its escapes, ends at x.
#[tactic(auto, using(crate::proofs::PartLaws::rows))]
pub fn put_leaf(
    rows: &mut [u32],
    c: Cursor,
    parent: u32,
    kind: Kind,
    at: usize,
    x: usize,
    far: usize,
    e: usize,
) -> Block
    requires { Small c.at e (spot c.text) (spot x) (c.row + 1) }
    ensures { Rowed c parent kind.0 at x far e result rows.old rows.new }
{
    let row = c.row;
    let n = Cursor {
        at,
        row: row + 1,
        text: x,
    };
    put_row(
        rows,
        row,
        row_of(kind, c.at, e, c.spot(), n.spot(), parent, row + 1),
    );
    Ok((n, far, e))
}
