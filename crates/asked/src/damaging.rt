// Finding with every word of the table made 0, one more, and as great as can be.
use super::table::find_with;
use std::io;

pub fn all(rt: &impl Print, t: &[u32; 99]) -> io::Result<()> {
    (0..99).try_for_each(|at| damage(rt, t, at))
}

fn damage(rt: &impl Print, t: &[u32; 99], at: usize) -> io::Result<()> {
    find_with(rt, t, at, 0, b"ab")?;
    if at < 99 {
        find_with(rt, t, at, t[at].wrapping_add(1), b"ab")?;
    }
    find_with(rt, t, at, u32::MAX, b"ab")
}
