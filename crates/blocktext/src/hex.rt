// Block bytes, open at a column and of a property.
ghost use Rattle.std.specs.Prelude.{◌≡◌, ◌∷◌, ◌+◌, drop};
ghost use Rattle.language.specs.Kind.{BYTES};
ghost use Rattle.language.specs.BlockText.{part_text, part_end};
ghost use Rattle.rooms.specs.Contract.{Ready, Blocks};
ghost use Rattle.blocktext.specs.Plus.{plus_r};
ghost use Rattle.blocktext.specs.HexLines.{hex_rest_r, hex_line_r, hex_lines_r};
ghost use Rattle.blocktext.specs.BlockBytes.{leader_comment_r, open_bytes_r, property_bytes_r};
ghost use Rattle.blocktext.specs.Contract.{Asked};
ghost use Rattle.blocktext.specs.Leaves.{Begun, Furthers};
ghost use Rattle.blocktext.specs.Parts.{closes, Closing, PartAt};

use super::leaf::put_leaf;
use characters::{Reading, Skip};
use language::Kind;
use rooms::{Ans, Block, Cursor};
use strings::pairs;

// The cursor at the LF behind what was passed over.
#[tactic(auto, using(crate::proofs::PartLaws::closed))]
fn ended(doc: &[u8], n: Cursor, got: Skip) -> Ans
    ensures { result ≡ closes doc.now n got }
{
    let e = got?;
    Reading { at: e }.take(doc, b'\n')?;
    Ok(Cursor {
        at: e,
        row: n.row,
        text: n.text,
    })
}

// The rest of a hex line behind its spaces, up to its LF: pairs with an optional line comment, or a comment.
#[tactic(auto, using(crate::proofs::HexLaws::hex_resting))]
fn hex_rest(doc: &[u8], text: &mut [u8], at: usize, x: usize) -> Ans
    requires { Ready doc.now (record { at = at; row = 0; text = x }) }
    ensures { PartAt doc.now (record { at = at; row = 0; text = x }) (hex_rest_r at (drop at doc.now)) result text.old text.new }
{
    let c = Cursor {
        at,
        row: 0,
        text: x,
    };
    if c.look(doc) == 35 {
        let bare = Reading { at: c.at }.comment(doc);
        return ended(doc, c, bare);
    }
    let (n, _) = pairs(doc, text, c)?;
    let more = Reading { at: n.at }.optional_comment(doc);
    ended(doc, n, more)
}

// The hex lines deeper than col below the LF at e, of bytes whose text so far ends at x.
#[tactic(auto, using(crate::proofs::HexLaws::hexing))]
fn hex_lines(
    doc: &[u8],
    rows: &mut [u32],
    text: &mut [u8],
    c: Cursor,
    parent: u32,
    col: usize,
    e: usize,
    x: usize,
) -> Block
    requires { Begun doc.now c e x col }
    ensures { Furthers doc.now c parent BYTES (hex_lines_r col (e + 1) (drop (e + 1) doc.now)) (part_end e) part_text (e + 1) x result rows.old rows.new text.old text.new }
{
    let mut n = Cursor {
        at: e,
        row: 0,
        text: x,
    };
    loop {
        let a = n.at + 1;
        let s = Reading { at: a }.spaces(doc).at;
        if s - a <= col {
            return put_leaf(rows, c, parent, Kind::BYTES, a, n.text, s, n.at);
        }
        n = hex_rest(doc, text, s, n.text)?;
    }
}

// Open block bytes, whose `>` stands at the cursor.
#[tactic(auto, using(crate::proofs::HexLaws::open_bytes))]
pub fn open_bytes(
    doc: &[u8],
    rows: &mut [u32],
    text: &mut [u8],
    c: Cursor,
    parent: u32,
    col: usize,
) -> Block
    requires { Asked doc.now c 62 col }
    ensures { Blocks doc.now c parent (open_bytes_r col c.at (drop c.at doc.now)) result rows.old rows.new text.old text.new }
{
    let n = c.take(doc, b'>')?;
    let m = n.take(doc, b' ')?;
    let e = hex_rest(doc, text, m.at, m.text)?;
    hex_lines(doc, rows, text, c, parent, col, e.at, e.text)
}

// The leader of a property's block bytes from the cursor on, behind the `>`: an optional comment, up to the LF.
#[tactic(auto, using(crate::proofs::HexLaws::leading))]
fn leader(doc: &[u8], n: Cursor) -> Ans
    requires { Ready doc.now n }
    ensures { Closing doc.now n.at (leader_comment_r n.at (drop n.at doc.now)) n result }
{
    match n.take(doc, b' ') {
        Err(p) => ended(doc, n, Ok(p)),
        Ok(m) => {
            let got = Reading { at: m.at }.comment(doc);
            ended(doc, n, got)
        }
    }
}

// The hex lines of a property's block bytes below the LF at e, at least one.
#[tactic(auto, using(crate::proofs::HexLaws::first_lines))]
fn property_lines(
    doc: &[u8],
    rows: &mut [u32],
    text: &mut [u8],
    c: Cursor,
    parent: u32,
    col: usize,
    e: usize,
) -> Block
    requires { Begun doc.now c e c.text col }
    ensures { Furthers doc.now c parent BYTES (plus_r (hex_line_r col) (hex_lines_r col) (e + 1) (drop (e + 1) doc.now)) (part_end 0) part_text (e + 1) c.text result rows.old rows.new text.old text.new }
{
    let a = e + 1;
    let s = Reading { at: a }.spaces(doc).at;
    if s - a <= col {
        return Err(s);
    }
    let n = hex_rest(doc, text, s, c.text)?;
    hex_lines(doc, rows, text, c, parent, col, n.at, n.text)
}

// A property's block bytes, whose `>` stands at the cursor.
#[tactic(auto, using(crate::proofs::HexLaws::property_bytes))]
pub fn property_bytes(
    doc: &[u8],
    rows: &mut [u32],
    text: &mut [u8],
    c: Cursor,
    parent: u32,
    col: usize,
) -> Block
    requires { Asked doc.now c 62 col }
    ensures { Blocks doc.now c parent (property_bytes_r col c.at (drop c.at doc.now)) result rows.old rows.new text.old text.new }
{
    let m = c.take(doc, b'>')?;
    let n = leader(doc, m)?;
    property_lines(doc, rows, text, c, parent, col, n.at)
}
