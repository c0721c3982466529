// Blocks: arrays and objects by lines, what is nested in a property, and items. A container inside another takes one of the allowance.
ghost use Rattle.std.specs.Prelude.{suc, ◌+◌, ◌*◌, ◌≤◌, drop, true};
ghost use Rattle.rooms.specs.Contract.{columns, Ready, Blocks};
ghost use Rattle.blocks.specs.Property.{on_r};
ghost use Rattle.blocks.specs.Rest.{rest_r};
ghost use Rattle.blocks.specs.Array.{bullet_r};
ghost use Rattle.blocks.specs.Nested.{nested_r, item_r};
ghost use Rattle.notes.specs.Notes.{Notes, one};
ghost use Rattle.judge.specs.Members.{members, member_r, block_r};
ghost use Rattle.judge.specs.Contract.{Stands, Members};

use super::Start;
use super::lines::{enclose, kept, key_row, nested_line, on_line, opener};
use super::look::{further, line_end, moved, one_space, starts};
use inline::pass;
use notes::note;
use rooms::{Block, Cursor, anew_block};

// What stands behind the colon of a property at col.
#[cycle(behind_block_bullet_item_member_nested_property)]
fn behind(
    doc: &[u8],
    rows: &mut [u32],
    text: &mut [u8],
    keys: &mut [u32],
    c: Cursor,
    parent: u32,
    col: usize,
    allow: usize,
) -> Block
    requires ready { Ready doc.now c }
    requires allow_bound { col + 2 * (allow + 1) ≤ columns }
    ensures blocks { Blocks doc.now c parent (rest_r (on_r allow col) (nested_r allow (suc (suc col))) c.at (drop c.at doc.now)) result rows.old rows.new text.old text.new }
    ensures notes { Notes one doc.now c.at c.row parent (rest_r (on_r allow col) (nested_r allow (suc (suc col))) c.at (drop c.at doc.now)) keys.old keys.new }
{
    if let Ok(n) = one_space(doc, c) {
        return anew_block(on_line(doc, rows, text, keys, n, parent, col, allow));
    }
    let a = line_end(doc, c.at, false)?;
    anew_block(nested(doc, rows, text, keys, moved(c, a), parent, col + 2, allow))
}

// A property at col: its key, a colon, and what stands behind it.
#[cycle(behind_block_bullet_item_member_nested_property)]
fn property(
    doc: &[u8],
    rows: &mut [u32],
    text: &mut [u8],
    keys: &mut [u32],
    c: Cursor,
    parent: u32,
    col: usize,
    allow: usize,
) -> Block
    requires stands { Stands doc.now c }
    requires allow_bound { col + 2 * (allow + 1) ≤ columns }
    ensures members { Members true doc.now c parent (member_r true allow col c.at (drop c.at doc.now)) result rows.old rows.new text.old text.new }
    ensures notes { Notes (members true) doc.now c.at c.row parent (member_r true allow col c.at (drop c.at doc.now)) keys.old keys.new }
{
    let n = key_row(doc, rows, text, c, parent)?;
    let m = n.take(doc, 58)?;
    note(doc, keys, parent, c.at, allow);
    behind(doc, rows, text, keys, m, parent, col, allow)
}

// A member of a block at col: a property, or a dash, a space and an item.
#[cycle(behind_block_bullet_item_member_nested_property)]
fn member(
    doc: &[u8],
    rows: &mut [u32],
    text: &mut [u8],
    keys: &mut [u32],
    c: Cursor,
    parent: u32,
    col: usize,
    allow: usize,
    object: bool,
) -> Block
    requires stands { Stands doc.now c }
    requires allow_bound { col + 2 * (allow + 1) ≤ columns }
    ensures members { Members object doc.now c parent (member_r object allow col c.at (drop c.at doc.now)) result rows.old rows.new text.old text.new }
    ensures notes { Notes (members object) doc.now c.at c.row parent (member_r object allow col c.at (drop c.at doc.now)) keys.old keys.new }
{
    if object {
        return property(doc, rows, text, keys, c, parent, col, allow);
    }
    let n = pass(doc, c, 45, 32)?;
    item(doc, rows, text, keys, n, parent, col + 2, allow)
}

// A block at col whose first member begins at the cursor.
#[cycle(behind_block_bullet_item_member_nested_property)]
pub fn block(
    doc: &[u8],
    rows: &mut [u32],
    text: &mut [u8],
    keys: &mut [u32],
    c: Cursor,
    parent: u32,
    col: usize,
    allow: usize,
    object: bool,
) -> Block
    requires ready { Ready doc.now c }
    requires allow_bound { col + 2 * (allow + 1) ≤ columns }
    ensures blocks { Blocks doc.now c parent (block_r object allow col c.at (drop c.at doc.now)) result rows.old rows.new text.old text.new }
    ensures notes { Notes one doc.now c.at c.row parent (block_r object allow col c.at (drop c.at doc.now)) keys.old keys.new }
{
    let row = c.row;
    let mut cur = Cursor {
        at: c.at,
        row: row + 1,
        text: c.text,
    };
    let mut far: usize = 0;
    let mut count: usize = 0;
    loop {
        match member(doc, rows, text, keys, cur, row as u32, col, allow, object) {
            Err(p) => return Err(far.max(p)),
            Ok((n, f, e)) => {
                far = far.max(f);
                count += 1;
                match further(doc, n, col, object) {
                    Err(p) => {
                        enclose(rows, c, e, parent, count, n.row, object);
                        return Ok((n, far.max(p), e));
                    }
                    Ok(m) => cur = m,
                }
            }
        }
    }
}

// A nested bullet: an array of one item, whose dash stands at the cursor.
#[cycle(behind_block_bullet_item_member_nested_property)]
fn bullet(
    doc: &[u8],
    rows: &mut [u32],
    text: &mut [u8],
    keys: &mut [u32],
    c: Cursor,
    parent: u32,
    col: usize,
    allow: usize,
) -> Block
    requires ready { Ready doc.now c }
    requires allow_bound { col + 2 * (allow + 1) ≤ columns }
    ensures blocks { Blocks doc.now c parent (bullet_r (item_r allow (suc (suc col))) c.at (drop c.at doc.now)) result rows.old rows.new text.old text.new }
    ensures notes { Notes one doc.now c.at c.row parent (bullet_r (item_r allow (suc (suc col))) c.at (drop c.at doc.now)) keys.old keys.new }
{
    let row = c.row;
    let cur = Cursor {
        at: c.at,
        row: row + 1,
        text: c.text,
    };
    let (n, f, e) = member(doc, rows, text, keys, cur, row as u32, col, allow, false)?;
    enclose(rows, c, e, parent, 1, n.row, false);
    Ok((n, f, e))
}

// An item with the content column col.
#[cycle(behind_block_bullet_item_member_nested_property)]
fn item(
    doc: &[u8],
    rows: &mut [u32],
    text: &mut [u8],
    keys: &mut [u32],
    c: Cursor,
    parent: u32,
    col: usize,
    allow: usize,
) -> Block
    requires ready { Ready doc.now c }
    requires allow_bound { col + 2 * allow ≤ columns }
    ensures blocks { Blocks doc.now c parent (item_r allow col c.at (drop c.at doc.now)) result rows.old rows.new text.old text.new }
    ensures notes { Notes one doc.now c.at c.row parent (item_r allow col c.at (drop c.at doc.now)) keys.old keys.new }
{
    if allow == 0 {
        return anew_block(opener(doc, rows, text, keys, c, parent, col, allow, false));
    }
    match starts(doc, c) {
        Start::Dash => bullet(doc, rows, text, keys, c, parent, col, allow - 1),
        Start::Key => anew_block(block(doc, rows, text, keys, c, parent, col, allow - 1, true)),
        Start::Line(p) => {
            let line = opener(doc, rows, text, keys, c, parent, col, allow, false);
            kept(line, p)
        }
    }
}

// Nested content at col, whose line begins at the cursor.
#[cycle(behind_block_bullet_item_member_nested_property)]
fn nested(
    doc: &[u8],
    rows: &mut [u32],
    text: &mut [u8],
    keys: &mut [u32],
    c: Cursor,
    parent: u32,
    col: usize,
    allow: usize,
) -> Block
    requires ready { Ready doc.now c }
    requires allow_bound { col + 2 * allow ≤ columns }
    ensures blocks { Blocks doc.now c parent (nested_r allow col c.at (drop c.at doc.now)) result rows.old rows.new text.old text.new }
    ensures notes { Notes one doc.now c.at c.row parent (nested_r allow col c.at (drop c.at doc.now)) keys.old keys.new }
{
    let i = c.indent(doc, col);
    let n = moved(c, c.at + i);
    if i < col {
        return Err(n.at);
    }
    if allow == 0 {
        return nested_line(doc, rows, text, n, parent, col);
    }
    match starts(doc, n) {
        Start::Dash => block(doc, rows, text, keys, n, parent, col, allow - 1, false),
        Start::Key => anew_block(block(doc, rows, text, keys, n, parent, col, allow - 1, true)),
        Start::Line(p) => {
            let line = nested_line(doc, rows, text, n, parent, col);
            kept(line, p)
        }
    }
}
