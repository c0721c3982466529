// A row's text, as two questions.
ghost use Rattle.std.specs.Prelude.{◌≡◌};
ghost use Rattle.questions.specs.Text.{text_number, text_of};

use super::table::text_in;
use language::Row;

const BADROW: u32 = 9;

// 0, or BADROW where the row has no text that can be read.
// Stays (point 1): `text_number` and `text` are the two questions of document 01 on a row's text, each with its own definition and theorem (`one_number`, `one_text`).
pub fn text_number(table: &[u32], rows: usize, room: &[u8], row: Row) -> u32
    ensures { result ≡ text_number table.now rows room.now row.0 }
{
    if text_in(table, rows, room, row.0).is_some() {
        0
    } else {
        BADROW
    }
}

// The part of the room that is the row's text, empty where its number is BADROW.
pub fn text<'t, 'r>(table: &'t [u32], rows: usize, room: &'r [u8], row: Row) -> &'r [u8]
    ensures { result.now ≡ text_of table.now rows room.now row.0 }
{
    text_in(table, rows, room, row.0).unwrap_or(&[])
}
