// A good table, and the questions asked of it, whole or with one word changed.
ghost use Rattle.std.specs.Prelude.{◌<◌};

use super::show;
use super::show::{number, say};
use language::WIDTH;
use std::io;

pub const ROWS: usize = 11;

pub const MOST: usize = usize::MAX;

fn put(t: &mut [u32; 99], r: usize, row: [u32; 9])
    requires { r < 11 }
{
    t[WIDTH * r..WIDTH * r + WIDTH].copy_from_slice(&row);
}

// The rows of `{a: 1, bc: [22, -3], ab: {a: null}}`.
pub fn good() -> [u32; 99] {
    let mut t = [0u32; 99];
    put(&mut t, 0, [9, 0, 35, 0, 3, 0, 11, 1, 1]);
    put(&mut t, 1, [10, 1, 2, 0, 1, 0, 2, 1, 2]);
    put(&mut t, 2, [4, 4, 5, 1, 2, 0, 3, 1, 5]);
    put(&mut t, 3, [10, 7, 9, 2, 4, 0, 4, 1, 8]);
    put(&mut t, 4, [8, 11, 19, 0, 2, 0, 7, 1, 12]);
    put(&mut t, 5, [4, 12, 14, 4, 6, 4, 6, 1, 13]);
    put(&mut t, 6, [4, 16, 18, 6, 8, 4, 7, 1, 17]);
    put(&mut t, 7, [10, 21, 23, 8, 10, 0, 8, 1, 22]);
    put(&mut t, 8, [9, 25, 34, 0, 1, 0, 11, 1, 26]);
    put(&mut t, 9, [10, 26, 27, 10, 11, 8, 10, 1, 27]);
    put(&mut t, 10, [1, 29, 33, 0, 0, 8, 11, 1, 30]);
    t
}

// With its own rows and room.
pub fn text(rt: &impl Print, t: &[u32; 99], row: usize) -> io::Result<()> {
    show::text(rt, t, ROWS, b"a1bc22-3aba", row)
}

pub fn find(rt: &impl Print, t: &[u32; 99], object: usize, key: &[u8]) -> io::Result<()> {
    show::find(rt, t, ROWS, b"a1bc22-3aba", object, key)
}

// With the word at `at` changed.
pub fn text_with(
    rt: &impl Print,
    t: &[u32; 99],
    at: usize,
    value: u32,
    row: usize,
) -> io::Result<()> {
    let mut d = *t;
    if at < 99 {
        d[at] = value;
    }
    word(rt, at, value)?;
    text(rt, &d, row)
}

pub fn find_with(
    rt: &impl Print,
    t: &[u32; 99],
    at: usize,
    value: u32,
    key: &[u8],
) -> io::Result<()> {
    let mut d = *t;
    if at < 99 {
        d[at] = value;
    }
    word(rt, at, value)?;
    find(rt, &d, 0, key)
}

fn word(rt: &impl Print, at: usize, value: u32) -> io::Result<()> {
    say(rt, b"word ")?;
    number(rt, at)?;
    say(rt, b"is ")?;
    number(rt, value as usize)
}
