// Loading: stored bytes are passed over and tested, their rows counted; then the rooms lent are tested and filled.
#![tactic(auto)]

ghost use Rattle.std.specs.Prelude.{◌≡◌, ◌-◌, ◌*◌, ◌≤◌, length};
ghost use Rattle.language.specs.Lent.{lent};
ghost use Rattle.uncut.specs.Short.{longest};
ghost use Rattle.load.specs.Loading.{Told, Asked, Filled};
ghost use Rattle.stored.specs.Loaded.{loading_number, loading_value, loading_second, Loads};

use language::{DEEPEST, LENT, Row, bytes_lent, rows_lent};
use stored::{LoadRefusal, Loaded, Loading, WIDEST};
use uncut::{fill, value};
use views::{LEVELS, View};

// A field with the widest content: no longer file has one part only.
const LONGEST: usize = WIDEST + 3;

// The text bytes of fields without parts: each row has a head of three bytes, all others are text.
fn texts(end: usize, rows: usize) -> usize
    requires { (3 * rows ≤ end) × (rows ≤ longest) }
    ensures { result ≡ end - 3 * rows }
{
    end - 3 * rows
}

// The rows and the text bytes of stored bytes that one field holds, or nothing if they are no stored form.
#[tactic(auto, using(crate::specs::Testing::telling))]
fn held_short(stored: &[u8]) -> Option<Loaded>
    requires { length stored.now ≤ longest }
    ensures { Told stored.now result }
{
    let t = value(stored, 0, stored.len(), DEEPEST)?;
    if t.to < stored.len() {
        return None;
    }
    Some(Loaded {
        rows: Row(t.rows),
        bytes: texts(t.to, t.rows),
    })
}

// Of more.
#[tactic(auto, using(crate::specs::Testing::telling))]
fn held_long(stored: &[u8]) -> Option<Loaded>
    requires { length stored.now ≤ lent }
    ensures { Told stored.now result }
{
    let starts = [0u32; LEVELS];
    let v = View {
        stored,
        starts: &starts,
        d: 0,
        n: stored.len(),
    };
    let w = cutvalues::value(v, 0, DEEPEST)?;
    if w.to < stored.len() {
        return None;
    }
    Some(Loaded {
        rows: Row(w.rows),
        bytes: w.bytes,
    })
}

// Of any bytes.
fn counted(stored: &[u8]) -> Option<Loaded>
    ensures { Told stored.now result }
{
    if stored.len() <= LONGEST {
        return held_short(stored);
    }
    if LENT < stored.len() {
        return None;
    }
    held_long(stored)
}

// The rooms are filled from the tree that the stored bytes hold.
fn filled(stored: &[u8], table: &mut [u32], text: &mut [u8])
    requires { Asked stored.now (length text.old) }
    ensures { (k : Asked stored.now (length text.old)) → Filled k.tree table.old table.new text.old text.new }
{
    if stored.len() <= LONGEST {
        fill(stored, table, text);
    } else {
        cutfill::fill(stored, table, text);
    }
}

// Loads a profile into the rooms lent; a refusal leaves them as they came.
pub fn load(stored: &[u8], table: &mut [u32], text: &mut [u8]) -> Loading
    ensures { Loads stored.now table.old text.old (loading_number result) (loading_value result) (loading_second result) table.new text.new }
{
    let Some(held) = counted(stored) else {
        return Err(LoadRefusal::BadForm);
    };
    if rows_lent(table) < held.rows.0 {
        return Err(LoadRefusal::Rows(held.rows));
    }
    if bytes_lent(text) < held.bytes {
        return Err(LoadRefusal::Text(held.bytes));
    }
    filled(stored, table, text);
    Ok(held)
}
