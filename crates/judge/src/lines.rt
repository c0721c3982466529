// A value on a line, and what else may begin where one does; and the row of a block.
ghost use Rattle.std.specs.Prelude.{◌≡◌, ◌*◌, ◌≤◌, drop};
ghost use Rattle.std.proofs.lemmas.List.Edits.{sets};
ghost use Rattle.language.specs.Tree.{width, unlined, row_list};
ghost use Rattle.rooms.specs.Contract.{columns, Ready, Answers, Blocks};
ghost use Rattle.strings.specs.Keys.{key_r};
ghost use Rattle.blocks.specs.ValueLine.{line_r};
ghost use Rattle.blocks.specs.Property.{on_r};
ghost use Rattle.blocks.specs.Openers.{opener_r, nested_line_r};
ghost use Rattle.notes.specs.Notes.{Notes, one};
ghost use Rattle.judge.specs.Members.{kind_of};
ghost use Rattle.judge.specs.Contract.{Stands, end_r, later, Enclosed};

use super::look::{line_end, moved};
use blocktext::{joined, open_bytes, open_string, property_bytes, property_string};
use inline::line_value;
use language::Kind;
use rooms::{Ans, Block, Cursor, put_row, row_of};
use strings::name;

// A value on this line, and the line's end; at the root no comment.
pub fn value_line(
    doc: &[u8],
    rows: &mut [u32],
    text: &mut [u8],
    keys: &mut [u32],
    c: Cursor,
    parent: u32,
    allow: usize,
    root: bool,
) -> Block
    requires { Ready doc.now c }
    ensures blocks { Blocks doc.now c parent (line_r (end_r root) allow c.at (drop c.at doc.now)) result rows.old rows.new text.old text.new }
    ensures notes { Notes one doc.now c.at c.row parent (line_r (end_r root) allow c.at (drop c.at doc.now)) keys.old keys.new }
{
    let (n, far) = line_value(doc, rows, text, keys, c, parent, allow)?;
    let e = n.at;
    match line_end(doc, e, root) {
        Ok(a) => Ok((moved(n, a), far, e)),
        Err(p) => Err(far.max(p)),
    }
}

// Behind a colon's space: a block string or block bytes of a property at col, or a value on this line.
// Stays (point 2): `on_line` and `opener` read by two grammars (on_r, opener_r) and share but the choice by the first byte; as one, with a flag, each arm and the contract would choose again.
pub fn on_line(
    doc: &[u8],
    rows: &mut [u32],
    text: &mut [u8],
    keys: &mut [u32],
    c: Cursor,
    parent: u32,
    col: usize,
    allow: usize,
) -> Block
    requires ready { Ready doc.now c }
    requires col_le_columns { col ≤ columns }
    ensures blocks { Blocks doc.now c parent (on_r allow col c.at (drop c.at doc.now)) result rows.old rows.new text.old text.new }
    ensures notes { Notes one doc.now c.at c.row parent (on_r allow col c.at (drop c.at doc.now)) keys.old keys.new }
{
    match c.look(doc) {
        96 => property_string(doc, rows, text, c, parent, col),
        62 => property_bytes(doc, rows, text, c, parent, col),
        _ => value_line(doc, rows, text, keys, c, parent, allow, false),
    }
}

// An open block string or open block bytes at col, or a value on this line.
pub fn opener(
    doc: &[u8],
    rows: &mut [u32],
    text: &mut [u8],
    keys: &mut [u32],
    c: Cursor,
    parent: u32,
    col: usize,
    allow: usize,
    root: bool,
) -> Block
    requires ready { Ready doc.now c }
    requires col_le_columns { col ≤ columns }
    ensures blocks { Blocks doc.now c parent (opener_r (end_r root) allow col c.at (drop c.at doc.now)) result rows.old rows.new text.old text.new }
    ensures notes { Notes one doc.now c.at c.row parent (opener_r (end_r root) allow col c.at (drop c.at doc.now)) keys.old keys.new }
{
    match c.look(doc) {
        96 => open_string(doc, rows, text, c, parent, col),
        62 => open_bytes(doc, rows, text, c, parent, col),
        _ => value_line(doc, rows, text, keys, c, parent, allow, root),
    }
}

// An open block string at col, or joined strings.
pub fn nested_line(
    doc: &[u8],
    rows: &mut [u32],
    text: &mut [u8],
    c: Cursor,
    parent: u32,
    col: usize,
) -> Block
    requires ready { Ready doc.now c }
    requires col_le_columns { col ≤ columns }
    ensures { Blocks doc.now c parent (nested_line_r col c.at (drop c.at doc.now)) result rows.old rows.new text.old text.new }
{
    if c.look(doc) == 96 {
        return open_string(doc, rows, text, c, parent, col);
    }
    joined(doc, rows, text, c, parent, col)
}

// The answer, refused no earlier than p.
pub fn kept(b: Block, p: usize) -> Block
    ensures { result ≡ later b p }
{
    match b {
        Ok((n, far, e)) => Ok((n, far, e)),
        Err(q) => Err(q.max(p)),
    }
}

// A key, whose row may be one ahead of its place: its name is read, and its row stored here.
pub fn key_row(doc: &[u8], rows: &mut [u32], text: &mut [u8], c: Cursor, parent: u32) -> Ans
    requires { Stands doc.now c }
    ensures { Answers doc.now c parent (key_r c.at (drop c.at doc.now)) result rows.old rows.new text.old text.new }
{
    let row = c.row;
    let from = Cursor {
        at: c.at,
        row: 0,
        text: c.text,
    };
    let n = name(doc, text, from)?;
    let w = row_of(Kind::KEY, c.at, n.at, c.spot(), n.spot(), parent, row + 1);
    put_row(rows, row, w);
    Ok(Cursor {
        at: n.at,
        row: row + 1,
        text: n.text,
    })
}

fn kind_of(object: bool) -> Kind
    ensures { result.0 ≡ kind_of object }
{
    if object { Kind::OBJECT } else { Kind::ARRAY }
}

// The row of a block at c that ends at e.
pub fn enclose(
    rows: &mut [u32],
    c: Cursor,
    e: usize,
    parent: u32,
    count: usize,
    next: usize,
    object: bool,
)
    requires { Enclosed c e count next }
    ensures { rows.new ≡ sets rows.old (width * c.row) (row_list unlined (kind_of object) c.at e 0 count parent next) }
{
    let w = row_of(kind_of(object), c.at, e, 0, count, parent, next);
    put_row(rows, c.row, w);
}
