// Finding keys in objects, in rows that are none, and where the words that lead the walk are damaged.
use super::table::{MOST, find, find_with};
use std::io;

pub fn all(rt: &impl Print, t: &[u32; 99]) -> io::Result<()> {
    keys(rt, t)?;
    find(rt, t, 8, b"a")?;
    find(rt, t, 8, b"ab")?;
    (1..13).try_for_each(|object| find(rt, t, object, b"a"))?;
    find(rt, t, MOST, b"a")?;
    first_match(rt, t)?;
    next_of_one(rt, t)?;
    next_of_two(rt, t)?;
    next_of_object(rt, t)
}

fn keys(rt: &impl Print, t: &[u32; 99]) -> io::Result<()> {
    find(rt, t, 0, b"a")?;
    find(rt, t, 0, b"bc")?;
    find(rt, t, 0, b"ab")?;
    find(rt, t, 0, b"b")?;
    find(rt, t, 0, b"abc")?;
    find(rt, t, 0, b"bd")?;
    find(rt, t, 0, b"")
}

// The second key is made `b`, and `a` again; what lies behind a match is not met.
fn first_match(rt: &impl Print, t: &[u32; 99]) -> io::Result<()> {
    find_with(rt, t, 31, 3, b"b")?;
    find_with(rt, t, 30, 10, b"a")?;
    find_with(rt, t, 42, 0, b"a")?;
    find_with(rt, t, 42, 0, b"bc")
}

// The first value's seventh word leads back, and stays.
fn next_of_one(rt: &impl Print, t: &[u32; 99]) -> io::Result<()> {
    find_with(rt, t, 24, 1, b"ab")?;
    find_with(rt, t, 24, 2, b"ab")?;
    find_with(rt, t, 24, 0, b"ab")
}

// The second value's leads back, stays, falls short, and leads to the object's end and past it.
fn next_of_two(rt: &impl Print, t: &[u32; 99]) -> io::Result<()> {
    find_with(rt, t, 42, 3, b"ab")?;
    find_with(rt, t, 42, 4, b"ab")?;
    find_with(rt, t, 42, 5, b"ab")?;
    find_with(rt, t, 42, 11, b"ab")?;
    find_with(rt, t, 42, 12, b"ab")
}

// The object ends before its pairs, among them, and behind the rows.
fn next_of_object(rt: &impl Print, t: &[u32; 99]) -> io::Result<()> {
    find_with(rt, t, 6, 0, b"a")?;
    find_with(rt, t, 6, 1, b"a")?;
    find_with(rt, t, 6, 2, b"a")?;
    find_with(rt, t, 6, 4, b"ab")?;
    find_with(rt, t, 6, 12, b"ab")?;
    find_with(rt, t, 6, 12, b"no")
}
