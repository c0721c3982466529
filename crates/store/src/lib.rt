// Storing: a sound table and its text as tagged fields, one byte tag, two bytes length and the content.
#![tactic(auto)]

ghost use Rattle.std.specs.Prelude.{◌≡◌, length};
ghost use Rattle.stored.specs.Form.{form};
ghost use Rattle.store.specs.Answers.{Needs};
ghost use Rattle.stored.specs.Stored.{storing_number, storing_count, Stores};

use fields::{field, field_length, text_end};
use language::bytes_lent;
use sound::sound;
use stored::{StoreRefusal, Storing, WIDEST};

// How many bytes the table is stored in. Each row has a head of three bytes, and each text stands once; only where that is more than one field holds, there are parts, and all fields are counted.
fn needed(table: &[u32], rows: usize) -> usize
    requires { Needs table.now rows }
    ensures { (h : Needs table.now rows) → result ≡ length (form h.tree) }
{
    let n = 3 * rows + text_end(table, rows);
    if n <= WIDEST + 3 {
        return n;
    }
    field_length(table, 0)
}

// Stores a profile in the output lent; a refusal leaves it as it came.
pub fn store(table: &[u32], rows: usize, text: &[u8], out: &mut [u8]) -> Storing
    ensures { Stores table.now rows text.now out.old (storing_number result) (storing_count result) out.new }
{
    if !sound(table, rows, text) {
        return Err(StoreRefusal::BadRow);
    }
    let n = needed(table, rows);
    if bytes_lent(out) < n {
        return Err(StoreRefusal::TooShort(n));
    }
    field(table, text, 0, out, 0);
    Ok(n)
}
