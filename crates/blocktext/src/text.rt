// Block strings, open at a column and of a property.
ghost use Rattle.std.specs.Prelude.{◌≡◌, ◌+◌, drop};
ghost use Rattle.language.specs.Kind.{STRING};
ghost use Rattle.language.specs.Tree.{unescaped};
ghost use Rattle.language.specs.BlockText.{body_text, body_end};
ghost use Rattle.rooms.specs.Contract.{Blocks};
ghost use Rattle.blocktext.specs.TextLines.{body_r};
ghost use Rattle.blocktext.specs.BlockStrings.{open_string_r, property_string_r};
ghost use Rattle.blocktext.specs.Contract.{Asked, Led};
ghost use Rattle.blocktext.specs.Leaves.{Begun, Furthers};

use super::body::{body, put_body};
use super::leaf::put_leaf;
use super::lines::text_line;
use characters::Reading;
use language::Kind;
use rooms::{Block, Cursor, copy, put_byte};

// The body below the LF at e, of a string whose text so far ends at x.
fn below(
    doc: &[u8],
    rows: &mut [u32],
    text: &mut [u8],
    c: Cursor,
    parent: u32,
    col: usize,
    e: usize,
    x: usize,
) -> Block
    requires { Begun doc.now c e x col }
    ensures { Furthers doc.now c parent STRING (body_r col (e + 1) (drop (e + 1) doc.now)) (body_end e) (λ ls. unescaped (body_text ls)) (e + 1) x result rows.old rows.new text.old text.new }
{
    let b = body(doc, e, col)?;
    let y = put_body(doc, text, e, b.last, col, b.least, x);
    put_leaf(rows, c, parent, Kind::STRING, b.at, y, b.far, b.last)
}

// An open block string whose leader has a text from a on, behind the grave and a space.
#[tactic(auto, using(crate::proofs::StringLaws::led_strings))]
fn led_string(
    doc: &[u8],
    rows: &mut [u32],
    text: &mut [u8],
    c: Cursor,
    parent: u32,
    col: usize,
    a: usize,
) -> Block
    requires { Led doc.now c col a }
    ensures { Blocks doc.now c parent (open_string_r col c.at (drop c.at doc.now)) result rows.old rows.new text.old text.new }
{
    let x = c.spot();
    let e = text_line(doc, Reading { at: a })?;
    let n = e - a;
    copy(doc, a, e, text, x);
    put_byte(text, x + n, b'\n');
    below(doc, rows, text, c, parent, col, e, c.text + n + 1)
}

// An open block string, whose grave stands at the cursor.
#[tactic(auto, using(crate::proofs::StringLaws::open_strings))]
pub fn open_string(
    doc: &[u8],
    rows: &mut [u32],
    text: &mut [u8],
    c: Cursor,
    parent: u32,
    col: usize,
) -> Block
    requires { Asked doc.now c 96 col }
    ensures { Blocks doc.now c parent (open_string_r col c.at (drop c.at doc.now)) result rows.old rows.new text.old text.new }
{
    let n = c.take(doc, b'`')?;
    match n.step(doc) {
        Some((b' ', m)) => led_string(doc, rows, text, c, parent, col, m.at),
        Some((b'\n', _)) => {
            put_byte(text, c.spot(), b'\n');
            below(doc, rows, text, c, parent, col, n.at, c.text + 1)
        }
        _ => Err(n.at),
    }
}

// A property's block string, whose grave stands at the cursor.
#[tactic(auto, using(crate::proofs::StringLaws::property_strings))]
pub fn property_string(
    doc: &[u8],
    rows: &mut [u32],
    text: &mut [u8],
    c: Cursor,
    parent: u32,
    col: usize,
) -> Block
    requires { Asked doc.now c 96 col }
    ensures { Blocks doc.now c parent (property_string_r col c.at (drop c.at doc.now)) result rows.old rows.new text.old text.new }
{
    let n = c.take(doc, b'`')?;
    n.take(doc, b'\n')?;
    below(doc, rows, text, c, parent, col, n.at, c.text)
}
