// A question asked, and its line.
use integers::NotInt;
use language::Row;
use questions::BadRow;
use std::cmp::Ordering;
use std::io;

pub fn say(rt: &impl Print, word: &[u8]) -> io::Result<()> {
    rt.write_all(word)
}

pub fn number(rt: &impl Print, n: usize) -> io::Result<()> {
    print!(rt; "{n} ")
}

// A number of document 01 and the row or the place beside it.
fn reply(rt: &impl Print, n: usize, value: usize) -> io::Result<()> {
    say(rt, b"-> ")?;
    number(rt, n)?;
    println!(rt; "{value}")
}

pub fn text(
    rt: &impl Print,
    table: &[u32],
    rows: usize,
    room: &[u8],
    row: usize,
) -> io::Result<()> {
    say(rt, b"text ")?;
    number(rt, rows)?;
    number(rt, row)?;
    say(rt, b"-> ")?;
    let n = questions::text_number(table, rows, room, Row(row));
    print!(rt; "{n}")?;
    say(rt, b" '")?;
    say(rt, questions::text(table, rows, room, Row(row)))?;
    say(rt, b"'\n")
}

pub fn find(
    rt: &impl Print,
    table: &[u32],
    rows: usize,
    room: &[u8],
    object: usize,
    key: &[u8],
) -> io::Result<()> {
    say(rt, b"find ")?;
    number(rt, rows)?;
    number(rt, object)?;
    say(rt, b"'")?;
    say(rt, key)?;
    say(rt, b"' ")?;
    match questions::find(table, rows, room, Row(object), key) {
        Ok(Some(row)) => reply(rt, 0, row.0),
        Ok(None) => reply(rt, 10, 0),
        Err(BadRow) => reply(rt, 9, 0),
    }
}

pub fn verdict(rt: &impl Print, order: Result<Ordering, NotInt>) -> io::Result<()> {
    match order {
        Ok(Ordering::Less) => say(rt, b"-> 0 -1\n"),
        Ok(Ordering::Equal) => say(rt, b"-> 0 0\n"),
        Ok(Ordering::Greater) => say(rt, b"-> 0 1\n"),
        Err(NotInt) => say(rt, b"-> 11 0\n"),
    }
}

pub fn compare(rt: &impl Print, left: &[u8], right: &[u8]) -> io::Result<()> {
    say(rt, b"compare '")?;
    say(rt, left)?;
    say(rt, b"' '")?;
    say(rt, right)?;
    say(rt, b"' ")?;
    verdict(rt, integers::compare(left, right))
}
