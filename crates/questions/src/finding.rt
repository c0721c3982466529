// Finding a key in an object row, by the walk over its pairs.
ghost use Rattle.questions.specs.Walk as W;
ghost use Rattle.questions.specs.Contract.{KeyAt};

use super::BadRow;
use super::table::{NEXT, good, kind_of, text_in, word};
use language::{Kind, Row};

// The text of the key that stands at `at`, with a good row behind it.
fn key_at<'t, 'r>(
    table: &'t [u32],
    rows: usize,
    room: &'r [u8],
    at: usize,
) -> Result<&'r [u8], BadRow>
    ensures { KeyAt table.now rows room.now at result }
{
    let name = text_in(table, rows, room, at).ok_or(BadRow)?;
    if kind_of(table, at) == Kind::KEY && good(table, rows, at + 1) {
        Ok(name)
    } else {
        Err(BadRow)
    }
}

// The walk from row `from` while below `stop`.
fn walk(
    table: &[u32],
    rows: usize,
    room: &[u8],
    key: &[u8],
    stop: usize,
    from: usize,
) -> Result<Option<Row>, BadRow>
    ensures { W.Walk table.now rows room.now key.now stop from (W.found_reply result) }
{
    let mut at = from;
    while at < stop {
        let name = key_at(table, rows, room, at)?;
        let value = at + 1;
        if name == key {
            return Ok(Some(Row(value)));
        }
        let next = word(table, value, NEXT);
        if next <= value || stop < next {
            return Err(BadRow);
        }
        at = next;
    }
    Ok(None)
}

// The row of the value of a key in an object, where the key is there.
pub fn find(
    table: &[u32],
    rows: usize,
    room: &[u8],
    object: Row,
    key: &[u8],
) -> Result<Option<Row>, BadRow>
    ensures { W.Finds table.now rows room.now key.now object.0 (W.found_reply result) }
{
    let r = object.0;
    if good(table, rows, r) && kind_of(table, r) == Kind::OBJECT {
        walk(table, rows, room, key, word(table, r, NEXT), r + 1)
    } else {
        Err(BadRow)
    }
}
