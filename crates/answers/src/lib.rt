// The answer for a document whose rows and text are known: REPEAT, ROWS and TEXT in this order, or both copied into the rooms lent, and the rows' lines and columns told.
#![tactic(auto)]

ghost use Rattle.std.specs.Prelude.{◌≡◌, ◌≤◌, length};
ghost use Rattle.std.proofs.lemmas.List.Edits.{sets};
ghost use Rattle.std.proofs.Math.Seq.{slice};
ghost use Rattle.language.specs.Answered.{number, value, second, third, Answered, Totals};
ghost use Rattle.answers.specs.Held.{Held};

use language::{Accepted, Place, Refusal, WIDTH};
use lined::line_up;
use places::first_again;
use rooms::copy;

// The first n words of a table, stored in another.
fn copy_words(words: &[u32], n: usize, table: &mut [u32])
    requires { (n ≤ length words.now) × (n ≤ length table.old) }
    ensures { table.new ≡ sets table.old 0 (slice 0 n words.now) }
{
    for i in 0..n {
        table[i] = words[i];
    }
}

// The answer for a document whose rows and text stand in rooms of our own, and what it has of them.
// Stays (point 5): the document, the rooms of our own and the rooms lent go as parameters. A struct that holds the `&mut` slices would need a clause in every contract that it still holds the same ones.
pub fn answer(
    doc: &[u8],
    keys: &[u32],
    rows: &[u32],
    bytes: &[u8],
    counts: Accepted,
    table: &mut [u32],
    text: &mut [u8],
) -> Result<Accepted, Refusal>
    requires { Held doc.now keys.now rows.now bytes.now counts.rows.0 counts.text counts.escapes }
    ensures answered { Answered doc.now table.old text.old (number result) (value result) (second result) table.new text.new }
    ensures totals { Totals doc.now (number result) (third result) }
{
    if let Some(p) = first_again(doc, keys) {
        return Err(Refusal::Repeat(Place(p)));
    }
    let n = WIDTH * counts.rows.0;
    if table.len() < n {
        return Err(Refusal::Rows(counts.rows));
    }
    if text.len() < counts.text {
        return Err(Refusal::Text(counts.text));
    }
    copy_words(rows, n, table);
    copy(bytes, 0, counts.text, text, 0);
    line_up(doc, table, counts.rows.0);
    Ok(counts)
}
