// A whole document: comments, the root, blank lines. The check lends empty rooms; after a refusal it is run once more with one container more allowed.
ghost use Rattle.std.specs.Prelude.{◌≡◌, ◌*◌, ◌≤◌, length, drop};
ghost use Rattle.exact.specs.Verdict.{stop};
ghost use Rattle.language.specs.Answered.{limit, deepest};
ghost use Rattle.rooms.specs.Contract.{columns, Ready, Blocks};
ghost use Rattle.characters.specs.Reads.{Skips};
ghost use Rattle.blocks.specs.Root.{root_r};
ghost use Rattle.blocks.specs.Document.{head_r, verdict};
ghost use Rattle.judge.specs.Blamed.{Blamed};
ghost use Rattle.std.specs.declared.result.Result.TheVariants.{Err};
ghost use Rattle.notes.specs.Notes.{Notes, one};
ghost use Rattle.judge.specs.Contract.{comment_line_r, Finished, Checked, Filled, Logged};

use super::Start;
use super::lines::{kept, opener};
use super::look::{feed, moved, starts};
use super::nesting::block;
use characters::{Reading, Skip, bad_char, comment};
use language::{DEEPEST, Place, Refusal};
use rooms::{Ans, Block, Cursor};

// A comment and LF.
fn comment_line(doc: &[u8], at: usize) -> Skip
    ensures { Skips doc.now at (comment_line_r at (drop at doc.now)) result }
{
    feed(doc, comment(doc, at)?)
}

// The comments that a document begins with.
#[tactic(auto, using(crate::proofs::Documents::heading))]
fn comments(doc: &[u8]) -> Skip
    ensures { Skips doc.now 0 (head_r 0 doc.now) result }
{
    let mut c = Cursor {
        at: 0,
        row: 0,
        text: 0,
    };
    while c.look(doc) == 35 {
        c = moved(c, comment_line(doc, c.at)?);
    }
    Ok(c.at)
}

// The root.
fn root(
    doc: &[u8],
    rows: &mut [u32],
    text: &mut [u8],
    keys: &mut [u32],
    c: Cursor,
    allow: usize,
) -> Block
    requires ready { Ready doc.now c }
    requires allow_bound { 2 * allow ≤ columns }
    ensures blocks { Blocks doc.now c 0 (root_r allow c.at (drop c.at doc.now)) result rows.old rows.new text.old text.new }
    ensures notes { Notes one doc.now c.at c.row 0 (root_r allow c.at (drop c.at doc.now)) keys.old keys.new }
{
    if allow == 0 {
        return opener(doc, rows, text, keys, c, 0, 0, allow, true);
    }
    match starts(doc, c) {
        Start::Dash => block(doc, rows, text, keys, c, 0, 0, allow - 1, false),
        Start::Key => block(doc, rows, text, keys, c, 0, 0, allow - 1, true),
        Start::Line(p) => {
            let line = opener(doc, rows, text, keys, c, 0, 0, allow, true);
            kept(line, p)
        }
    }
}

// What follows the root that ends at the cursor: blank lines, and nothing behind them.
fn finish(doc: &[u8], n: Cursor, far: usize) -> Ans
    ensures { Finished doc.now n far result }
{
    let e = Reading { at: n.at }.line_feeds(doc);
    if e.at < doc.len() {
        Err(far.max(e.at))
    } else {
        Ok(n)
    }
}

// The whole document, written into the rooms as far as they reach.
pub fn pass(doc: &[u8], rows: &mut [u32], text: &mut [u8], keys: &mut [u32], allow: usize) -> Ans
    requires doc_len_bound { length doc.now ≤ limit }
    requires allow_bound { 2 * allow ≤ columns }
    ensures checked { Checked allow doc.now result }
    ensures filled { Filled allow doc.now rows.old rows.new text.old text.new }
    ensures logged { Logged allow doc.now keys.old keys.new }
{
    let at = comments(doc)?;
    let c = Cursor {
        at,
        row: 0,
        text: 0,
    };
    let (n, far, _) = root(doc, rows, text, keys, c, allow)?;
    finish(doc, n, far)
}

// The document read into empty rooms, so that nothing is written.
pub fn check(doc: &[u8], rows: &mut [u32], text: &mut [u8], keys: &mut [u32], allow: usize) -> Ans
    requires doc_len_bound { length doc.now ≤ limit }
    requires allow_bound { 2 * allow ≤ columns }
    ensures checked { Checked allow doc.now result }
    ensures rows_unchanged { (rows.new ≡ rows.old) × (text.new ≡ text.old) }
    ensures logged { Logged allow doc.now keys.old keys.new }
{
    pass(doc, &mut rows[..0], &mut text[..0], keys, allow)
}

// The refusal at p: END at the document's end, DEEP where one container more goes on, elsewhere CHAR or SYNTAX.
pub fn blame(doc: &[u8], rows: &mut [u32], text: &mut [u8], p: usize) -> Refusal
    requires doc_len_bound { length doc.now ≤ limit }
    requires doc_value { verdict deepest doc.now ≡ stop p }
    ensures blamed { Blamed doc.now (Err result) }
    ensures rows_unchanged { (rows.new ≡ rows.old) × (text.new ≡ text.old) }
{
    if doc.len() <= p {
        return Refusal::End(Place(p));
    }
    let mut none = [0u32; 1];
    match check(doc, rows, text, &mut none, DEEPEST + 1) {
        Ok(_) => Refusal::Deep(Place(p)),
        Err(q) if p < q => Refusal::Deep(Place(p)),
        Err(_) if bad_char(doc, p) => Refusal::Char(Place(p)),
        Err(_) => Refusal::Syntax(Place(p)),
    }
}
