// Runs of characters that are shown as they are: found at once, and copied at once.
// Stays (points 5, 6): `Scripted` is asked of the bytes from `at` on, other bytes at each call, and n is how far to look at most.
ghost use Rattle.std.specs.Prelude.{◌≡◌, true, ◌+◌, ◌≤◌, ◌<◌, length, get_or, drop};
ghost use Rattle.shaped.specs.Shaped.{Scripted};
ghost use Rattle.writer.specs.Runs.{Selfs, Here};

use super::codes::{allowed, code};
use characters::is_plain;

// Whether the bytes from `at` on are all plain, so many of them. They are counted, with no way out of the loop, so that many are tested at once.
fn all_plain(s: &[u8], at: usize, many: usize) -> bool
    requires { at + many ≤ length s.now }
    ensures { result ≡ true → Selfs s.now at (at + many) }
{
    let mut n = 0;
    for i in 0..many {
        if is_plain(s[at + i], b'"') {
            n += 1;
        }
    }
    n == many
}

// The place behind as many 16 plain bytes as stand at `at`.
fn plain_blocks(s: &[u8], at: usize) -> usize
    requires { at ≤ length s.now }
    ensures { Selfs s.now at result }
{
    let blocks = (s.len() - at) / 16;
    for k in 0..blocks {
        if !all_plain(s, at + 16 * k, 16) {
            return at + 16 * k;
        }
    }
    at + 16 * blocks
}

// The place behind the plain bytes that stand at `at`, n of them at most.
fn plain_near(s: &[u8], at: usize, n: usize) -> usize
    requires { at ≤ length s.now }
    ensures { Selfs s.now at result }
{
    let end = at + n.min(s.len() - at);
    for e in at..end {
        if !is_plain(s[e], b'"') {
            return e;
        }
    }
    end
}

// The place behind 8 plain bytes, if they stand at `at`; or else `at`.
fn plain_half(s: &[u8], at: usize) -> usize
    requires { at ≤ length s.now }
    ensures { Selfs s.now at result }
{
    if 8 <= s.len() - at && all_plain(s, at, 8) {
        return at + 8;
    }
    at
}

// The place behind the plain bytes that stand at `at`. Many runs are short: the first 4 bytes are read one at a time.
fn plain_end(s: &[u8], at: usize) -> usize
    requires { at ≤ length s.now }
    ensures { Selfs s.now at result }
{
    let near = plain_near(s, at, 4);
    if near - at < 4 {
        return near;
    }
    let far = plain_blocks(s, near);
    let half = plain_half(s, far);
    plain_near(s, half, s.len())
}

// The place behind the character of several bytes at `at`, if it is shown as it is; or else `at`.
fn rare_end(s: &[u8], at: usize) -> usize
    requires { Here s.now at × (127 < get_or s.now at 0) }
    ensures { Selfs s.now at result }
{
    let c = code(s, at);
    if allowed(c.value) {
        return c.next;
    }
    at
}

// The same, told by the first byte where that is enough.
fn wide_end(s: &[u8], at: usize) -> usize
    requires { Here s.now at }
    ensures { Selfs s.now at result }
{
    match s[at] {
        0..=127 => at,
        195..=223 => at + 2,
        224..=236 => at + 3,
        _ => rare_end(s, at),
    }
}

// The place behind the characters of several bytes at `at` that are shown as they are: most stand beside others.
fn wides(s: &[u8], at: usize) -> usize
    requires { Scripted (drop at s.now) × (at ≤ length s.now) }
    ensures { Selfs s.now at result }
{
    let mut e = at;
    while e < s.len() {
        let n = wide_end(s, e);
        if n == e {
            return e;
        }
        e = n;
    }
    e
}

// The place behind the characters at `at` that are shown as they are.
pub fn run(s: &[u8], at: usize) -> usize
    requires { Scripted (drop at s.now) × (at ≤ length s.now) }
    ensures { Selfs s.now at result }
{
    let mut e = plain_end(s, at);
    while e < s.len() {
        let n = wides(s, e);
        if n == e {
            return e;
        }
        e = plain_end(s, n);
    }
    e
}
