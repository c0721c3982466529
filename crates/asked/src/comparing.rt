// Comparing integers' texts, and texts that are none.
ghost use Rattle.std.specs.Prelude.{◌≡◌};
ghost use Rattle.asked.specs.Above.{is_above};

use super::show::{compare, say, verdict};
use integers::NotInt;
use std::cmp::Ordering;
use std::io;

pub fn all(rt: &impl Print) -> io::Result<()> {
    ten_above_nine();
    plain(rt)?;
    signed(rt)?;
    large(rt)?;
    no_digits(rt)?;
    leading_zeros(rt)?;
    other_bytes(rt)?;
    signs(rt)?;
    long(rt)
}

fn above(order: Result<Ordering, NotInt>) -> bool
    ensures { result ≡ is_above order }
{
    matches!(order, Ok(Ordering::Greater))
}

// P12, from the contract of `compare` alone.
fn ten_above_nine() {
    check::expect(above(integers::compare(b"10", b"9")));
}

fn plain(rt: &impl Print) -> io::Result<()> {
    compare(rt, b"10", b"9")?;
    compare(rt, b"9", b"10")?;
    compare(rt, b"9", b"9")?;
    compare(rt, b"0", b"0")?;
    compare(rt, b"0", b"1")?;
    compare(rt, b"123", b"124")?;
    compare(rt, b"223", b"124")
}

fn signed(rt: &impl Print) -> io::Result<()> {
    compare(rt, b"-1", b"0")?;
    compare(rt, b"0", b"-1")?;
    compare(rt, b"-10", b"-9")?;
    compare(rt, b"-9", b"-10")?;
    compare(rt, b"-9", b"-9")?;
    compare(rt, b"-9", b"9")?;
    compare(rt, b"9", b"-9")
}

fn large(rt: &impl Print) -> io::Result<()> {
    compare(rt, b"1", b"-100")?;
    compare(rt, b"-100", b"1")?;
    compare(rt, b"99999999999999999999", b"100000000000000000000")?;
    compare(rt, b"-99999999999999999999", b"-100000000000000000000")?;
    compare(rt, b"18446744073709551616", b"18446744073709551615")
}

fn no_digits(rt: &impl Print) -> io::Result<()> {
    compare(rt, b"", b"1")?;
    compare(rt, b"1", b"")?;
    compare(rt, b"", b"")?;
    compare(rt, b"-", b"1")?;
    compare(rt, b"a", b"b")
}

fn leading_zeros(rt: &impl Print) -> io::Result<()> {
    compare(rt, b"-0", b"0")?;
    compare(rt, b"0", b"-0")?;
    compare(rt, b"007", b"7")?;
    compare(rt, b"7", b"007")?;
    compare(rt, b"00", b"0")?;
    compare(rt, b"-07", b"7")
}

fn other_bytes(rt: &impl Print) -> io::Result<()> {
    compare(rt, b" 1", b"1")?;
    compare(rt, b"1 ", b"1")?;
    compare(rt, b"1 0", b"1")?;
    compare(rt, b"1.0", b"1")?;
    compare(rt, b"1e3", b"1")
}

fn signs(rt: &impl Print) -> io::Result<()> {
    compare(rt, b"+1", b"1")?;
    compare(rt, b"--1", b"1")?;
    compare(rt, b"1-", b"1")?;
    compare(rt, b"1", b"1:")?;
    compare(rt, b"1", b"1/")
}

// Two texts of 16 KB, then with the last digit of the right one more, then both below zero.
fn long(rt: &impl Print) -> io::Result<()> {
    let mut left = [b'7'; 16384];
    let mut right = [b'7'; 16384];
    say(rt, b"compare 16 KB, alike ")?;
    verdict(rt, integers::compare(&left, &right))?;
    right[16383] = b'8';
    say(rt, b"compare 16 KB, the last digit more ")?;
    verdict(rt, integers::compare(&left, &right))?;
    left[0] = b'-';
    right[0] = b'-';
    say(rt, b"compare 16 KB, the last digit more, below zero ")?;
    verdict(rt, integers::compare(&left, &right))
}
