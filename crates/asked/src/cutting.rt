// Finding with every cut of the table, with other counts of rows, and with every cut of the room.
// Stays (point 6): n is where a table or a room is cut, and no count of either.
use super::show::{find, number, say};
use super::table::{MOST, ROWS};
use std::io;

pub fn all(rt: &impl Print, t: &[u32; 99]) -> io::Result<()> {
    (0..100).try_for_each(|n| words(rt, t, n))?;
    (0..13).try_for_each(|rows| count(rt, t, rows, 0))?;
    count(rt, t, MOST, 0)?;
    count(rt, t, MOST, 12)?;
    count(rt, t, MOST, 18446744073709551614)?;
    (0..12).try_for_each(|n| part(rt, t, b"a1bc22-3aba", n))
}

fn words(rt: &impl Print, t: &[u32], n: usize) -> io::Result<()> {
    say(rt, b"words ")?;
    number(rt, n)?;
    if n <= t.len() {
        find(rt, &t[0..n], ROWS, b"a1bc22-3aba", 0, b"ab")?;
    }
    Ok(())
}

fn count(rt: &impl Print, t: &[u32], rows: usize, object: usize) -> io::Result<()> {
    find(rt, t, rows, b"a1bc22-3aba", object, b"ab")
}

fn part(rt: &impl Print, t: &[u32], room: &[u8], n: usize) -> io::Result<()> {
    say(rt, b"room ")?;
    number(rt, n)?;
    if n <= room.len() {
        find(rt, t, ROWS, &room[0..n], 0, b"ab")?;
    }
    Ok(())
}
