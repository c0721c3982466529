// The body of a block string: one pass finds its lines, where the last text ends and the least indentation, and a second writes its text.
ghost use Rattle.std.specs.Prelude.{◌≡◌, ◌+◌, ◌≤◌, ◌<◌, length};
ghost use Rattle.language.specs.Answered.{limit};
ghost use Rattle.language.specs.BlockText.{body_text};
ghost use Rattle.rooms.specs.Contract.{columns};
ghost use Rattle.blocktext.specs.Contract.{Sees, BodyAt, body_lines, Known, Stored, Lined, LinePut};

use super::lines::text_line;
use characters::Reading;
use rooms::{Cursor, copy, put_byte};

// What stands at a line: nothing but an LF, and the place behind it; a text and the place of its LF; or no line of the body, and how far one would begin.
// Stays (point 1): three things that may stand at a line, none of which is a refusal or nothing.
#[derive(Clone, Copy)]
pub enum Seen {
    Empty(usize),
    Written(usize, usize),
    Over(usize),
}

// The body: the place behind it, how far a further line would begin, where its last text ends, and the least indentation.
#[derive(Clone, Copy)]
pub struct Extent {
    pub at: usize,
    pub far: usize,
    pub last: usize,
    pub least: usize,
}

// The line at a, of a body deeper than col; or the place where it is refused.
#[tactic(auto, using(crate::proofs::BodyLaws::seeing))]
fn body_line(doc: &[u8], a: usize, col: usize) -> Result<Seen, usize>
    requires { a ≤ length doc.now }
    ensures { Sees doc.now col a result }
{
    let here = Reading { at: a };
    if let Ok(n) = here.take(doc, b'\n') {
        return Ok(Seen::Empty(n));
    }
    let dark = here.spaces(doc);
    let s = dark.at;
    if s - a <= col {
        return Ok(Seen::Over(s));
    }
    let e = text_line(doc, dark)?;
    Ok(Seen::Written(s, e))
}

// The body below the LF at e; or the place where it is refused.
#[tactic(auto, using(crate::proofs::BodyLaws::bodying))]
pub fn body(doc: &[u8], e: usize, col: usize) -> Result<Extent, usize>
    requires e_in_bounds { e < length doc.now }
    requires doc_len_bound { length doc.now ≤ limit }
    requires col_le_columns { col ≤ columns }
    ensures { BodyAt doc.now e col result }
{
    let mut a = e + 1;
    let mut last = e;
    let mut least = doc.len();
    loop {
        match body_line(doc, a, col)? {
            Seen::Empty(n) => a = n,
            Seen::Over(far) => {
                return Ok(Extent {
                    at: a,
                    far,
                    last,
                    least,
                });
            }
            Seen::Written(s, f) => {
                least = least.min(s - (a + col + 1));
                last = f;
                a = f + 1;
            }
        }
    }
}

// The line at the cursor, whose text word has no escapes, less the column and the least indentation, and its LF.
#[tactic(auto, using(crate::proofs::PutLaws::putting_line))]
fn put_line(doc: &[u8], text: &mut [u8], n: Cursor, col: usize, least: usize) -> Cursor
    requires { Lined doc.now col least n }
    ensures { LinePut doc.now col least n result text.old text.new }
{
    let x = n.text;
    match n.take(doc, b'\n') {
        Ok(m) => {
            put_byte(text, x, b'\n');
            Cursor {
                at: m.at,
                row: m.row,
                text: x + 1,
            }
        }
        Err(a) => {
            let e = Reading { at: a }.line_end(doc).at;
            let from = a + col + 1 + least;
            copy(doc, from, e, text, x);
            put_byte(text, x + (e - from), b'\n');
            Cursor {
                at: e + 1,
                row: n.row,
                text: x + (e - from) + 1,
            }
        }
    }
}

// The text of the body below the LF at e, whose last text ends at last, from x on: the place behind it.
pub fn put_body(
    doc: &[u8],
    text: &mut [u8],
    e: usize,
    last: usize,
    col: usize,
    least: usize,
    x: usize,
) -> usize
    requires { Known doc.now e col last least x }
    ensures { Stored x result (body_text (body_lines doc.now e col)) text.old text.new }
{
    let from = Cursor {
        at: e,
        row: 0,
        text: x,
    }
    .spot();
    let mut n = Cursor {
        at: e + 1,
        row: 0,
        text: from,
    };
    while n.at < last {
        n = put_line(doc, text, n, col, least);
    }
    x + (n.text - from)
}
