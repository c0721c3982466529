// A row's text, of rows in and out of range, of parts of the room and the table, and of damaged rows.
use super::show;
use super::table::{MOST, ROWS, text, text_with};
use std::io;

pub fn all(rt: &impl Print, t: &[u32; 99]) -> io::Result<()> {
    (0..12).try_for_each(|row| text(rt, t, row))?;
    text(rt, t, MOST)?;
    counts(rt, t)?;
    rooms(rt, t, b"a1bc22-3aba")?;
    tables(rt, t)?;
    kinds(rt, t)?;
    spans(rt, t)?;
    ends(rt, t)
}

fn count(rt: &impl Print, t: &[u32; 99], rows: usize, row: usize) -> io::Result<()> {
    show::text(rt, t, rows, b"a1bc22-3aba", row)
}

fn counts(rt: &impl Print, t: &[u32; 99]) -> io::Result<()> {
    count(rt, t, 0, 0)?;
    count(rt, t, 5, 4)?;
    count(rt, t, 5, 5)?;
    count(rt, t, 6, 5)?;
    count(rt, t, 100, 9)?;
    count(rt, t, 100, 11)?;
    // nine times the row after this one wraps
    count(rt, t, MOST, 2049638230412172401)?;
    count(rt, t, MOST, 18446744073709551614)
}

fn rooms(rt: &impl Print, t: &[u32; 99], room: &[u8]) -> io::Result<()> {
    if 7 <= room.len() {
        show::text(rt, t, ROWS, &room[0..7], 5)?;
        show::text(rt, t, ROWS, &room[0..7], 6)?;
        show::text(rt, t, ROWS, &room[0..0], 1)?;
    }
    Ok(())
}

fn tables(rt: &impl Print, t: &[u32]) -> io::Result<()> {
    if 90 <= t.len() {
        show::text(rt, &t[0..90], ROWS, b"a1bc22-3aba", 9)?;
        show::text(rt, &t[0..89], ROWS, b"a1bc22-3aba", 9)?;
        show::text(rt, &t[0..0], ROWS, b"a1bc22-3aba", 0)?;
    }
    Ok(())
}

// Row 3 is the key `bc`.
fn kinds(rt: &impl Print, t: &[u32; 99]) -> io::Result<()> {
    text_with(rt, t, 27, 0, 3)?;
    text_with(rt, t, 27, 3, 3)?;
    text_with(rt, t, 27, 4, 3)?;
    text_with(rt, t, 27, 7, 3)?;
    text_with(rt, t, 27, 8, 3)?;
    text_with(rt, t, 27, 11, 3)?;
    text_with(rt, t, 27, u32::MAX, 3)
}

fn spans(rt: &impl Print, t: &[u32; 99]) -> io::Result<()> {
    text_with(rt, t, 28, u32::MAX, 3)?;
    text_with(rt, t, 29, 0, 3)?;
    text_with(rt, t, 30, 0, 3)?;
    text_with(rt, t, 30, 4, 3)?;
    text_with(rt, t, 30, 5, 3)?;
    text_with(rt, t, 30, u32::MAX, 3)
}

fn ends(rt: &impl Print, t: &[u32; 99]) -> io::Result<()> {
    text_with(rt, t, 31, 2, 3)?;
    text_with(rt, t, 31, 1, 3)?;
    text_with(rt, t, 31, 11, 3)?;
    text_with(rt, t, 31, 12, 3)?;
    text_with(rt, t, 31, u32::MAX, 3)?;
    text_with(rt, t, 32, u32::MAX, 3)?;
    text_with(rt, t, 33, u32::MAX, 3)?;
    text_with(rt, t, 34, u32::MAX, 3)?;
    text_with(rt, t, 35, u32::MAX, 3)
}
