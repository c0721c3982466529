// Joined strings: two or more lines of one quoted string each.
ghost use Rattle.std.specs.Prelude.{◌+◌, ◌≤◌, length, drop};
ghost use Rattle.language.specs.Kind.{STRING};
ghost use Rattle.language.specs.BlockText.{part_text, part_end};
ghost use Rattle.exact.specs.Block.{indented_r};
ghost use Rattle.rooms.specs.Contract.{columns, Ready, Blocks};
ghost use Rattle.blocktext.specs.Plus.{plus_r};
ghost use Rattle.blocktext.specs.Further.{further_r};
ghost use Rattle.blocktext.specs.Joined.{quotes, joined_line_r, joined_r};
ghost use Rattle.blocktext.specs.Leaves.{Begun, Furthers};
ghost use Rattle.blocktext.specs.Parts.{PartAt};
ghost use Rattle.blocktext.specs.NextLine.{NextAt};

use super::leaf::put_leaf;
use language::Kind;
use rooms::{Ans, Block, Cursor};
use strings::quoted;

// Where the quoted string of a further line begins; or that there is none, and how far one would begin.
pub type Next = Result<usize, usize>;

// The line at a, of joined strings on col spaces.
#[tactic(auto, using(crate::proofs::JoinedLaws::next_lines))]
fn next_line(doc: &[u8], a: usize, col: usize) -> Next
    requires { a ≤ length doc.now }
    ensures { NextAt doc.now col a result }
{
    let start = Cursor {
        at: a,
        row: 0,
        text: 0,
    };
    let i = start.indent(doc, col);
    let s = a + i;
    if i < col {
        return Err(s);
    }
    let quote = Cursor {
        at: s,
        row: 0,
        text: 0,
    };
    match quote.look(doc) {
        34 => Ok(s),
        39 => Ok(s),
        _ => Err(s),
    }
}

// One line behind its spaces, up to its LF.
#[tactic(auto, using(crate::proofs::JoinedLaws::one_line))]
fn joined_line(doc: &[u8], text: &mut [u8], at: usize, x: usize) -> Ans
    requires { Ready doc.now (record { at = at; row = 0; text = x }) }
    ensures { PartAt doc.now (record { at = at; row = 0; text = x }) (joined_line_r at (drop at doc.now)) result text.old text.new }
{
    let c = Cursor {
        at,
        row: 0,
        text: x,
    };
    let n = quoted(doc, text, c)?;
    n.take(doc, b'\n')?;
    Ok(n)
}

// The further lines below the LF at e, of a string whose text so far ends at x.
fn joined_lines(
    doc: &[u8],
    rows: &mut [u32],
    text: &mut [u8],
    c: Cursor,
    parent: u32,
    col: usize,
    e: usize,
    x: usize,
) -> Block
    requires { Begun doc.now c e x col }
    ensures { Furthers doc.now c parent STRING (further_r quotes col joined_line_r (e + 1) (drop (e + 1) doc.now)) (part_end e) part_text (e + 1) x result rows.old rows.new text.old text.new }
{
    let mut n = Cursor {
        at: e,
        row: 0,
        text: x,
    };
    loop {
        let a = n.at + 1;
        match next_line(doc, a, col) {
            Err(far) => return put_leaf(rows, c, parent, Kind::STRING, a, n.text, far, n.at),
            Ok(s) => n = joined_line(doc, text, s, n.text)?,
        }
    }
}

// The same, at least one.
fn joined_more(
    doc: &[u8],
    rows: &mut [u32],
    text: &mut [u8],
    c: Cursor,
    parent: u32,
    col: usize,
    e: usize,
    x: usize,
) -> Block
    requires { Begun doc.now c e x col }
    ensures { Furthers doc.now c parent STRING (plus_r (indented_r col joined_line_r) (further_r quotes col joined_line_r) (e + 1) (drop (e + 1) doc.now)) (part_end 0) part_text (e + 1) x result rows.old rows.new text.old text.new }
{
    let s = next_line(doc, e + 1, col)?;
    let n = joined_line(doc, text, s, x)?;
    joined_lines(doc, rows, text, c, parent, col, n.at, n.text)
}

// Joined strings, the first of which stands at the cursor.
pub fn joined(
    doc: &[u8],
    rows: &mut [u32],
    text: &mut [u8],
    c: Cursor,
    parent: u32,
    col: usize,
) -> Block
    requires ready { Ready doc.now c }
    requires col_le_columns { col ≤ columns }
    ensures { Blocks doc.now c parent (joined_r col c.at (drop c.at doc.now)) result rows.old rows.new text.old text.new }
{
    let n = joined_line(doc, text, c.at, c.text)?;
    joined_more(doc, rows, text, c, parent, col, n.at, n.text)
}
