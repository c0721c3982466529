// Rows of any lent table: whether they are good, and their words.
ghost use Rattle.std.specs.Prelude.{◌≡◌};
ghost use Rattle.questions.specs.Table as T;
ghost use Rattle.questions.specs.Contract.{Held, TextIn};

use language::{Kind, WIDTH, bytes_lent, rows_lent};

// The words of a row that are asked for.
const KIND: usize = 0;

const START: usize = 3;

const END: usize = 4;

pub const NEXT: usize = 6;

// Word k of row r.
pub fn word(table: &[u32], r: usize, k: usize) -> usize
    requires { Held table.now r k }
    ensures { result ≡ T.word table.now r k }
{
    table[WIDTH * r + k] as usize
}

// Whether row r is good.
pub fn good(table: &[u32], rows: usize, r: usize) -> bool
    ensures { result ≡ T.good table.now rows r }
{
    r < rows && r < rows_lent(table)
}

// The kind of row r.
pub fn kind_of(table: &[u32], r: usize) -> Kind
    requires { Held table.now r 0 }
    ensures { result.0 ≡ T.kind table.now r }
{
    Kind(table[WIDTH * r + KIND])
}

// The text of row r, where it has one that can be read.
pub fn text_in<'t, 'r>(table: &'t [u32], rows: usize, room: &'r [u8], r: usize) -> Option<&'r [u8]>
    ensures { TextIn table.now rows room.now r result }
{
    if good(table, rows, r) && kind_of(table, r).has_text() {
        room[..bytes_lent(room)].get(word(table, r, START)..word(table, r, END))
    } else {
        None
    }
}
