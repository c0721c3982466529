// Text as the UTF-8 of scalar values.
ghost use Rattle.std.specs.Prelude.{◌≡◌, ◌<◌, ◌≤◌, length};
ghost use Rattle.notation.specs.Class.{pick};
ghost use Rattle.exact.specs.Tells.{Tells};
ghost use Rattle.shaped.specs.Shaped.{Scripted};
ghost use Rattle.texts.specs.Opens.{Inner, Led, Long};
ghost use Rattle.texts.specs.Script.{LedAt, Behind};
ghost use Rattle.texts.specs.Whole.{Whole, Plainly};

use integers::Text;

// Whether a byte stands within a character, behind its first one.
fn inner(b: u8) -> bool
    ensures { Tells (Inner b) result }
{
    matches!(b, 128..=191)
}

// The same for two bytes.
fn two_inner(c: u8, d: u8) -> bool
    ensures { Tells (Inner c × Inner d) result }
{
    inner(c) && inner(d)
}

// n where the test holds, and 0.
fn when(test: bool, n: usize) -> usize
    ensures { result ≡ pick test n 0 }
{
    if test { n } else { 0 }
}

// Stays (point 1), as `size` and `character` do: tried; with Options in place of 0, both built by Rust's compiler, characters of three bytes take 1.26 of the instructions.
// How many bytes a character has whose first two make this number, the next being d and f; 0: it is none. No overlong form, no surrogate, at most U+10FFFF.
fn long(w: u32, d: u8, f: u8) -> usize
    ensures { Long w d f result }
{
    match w {
        0xC280..=0xDFBF => 2,
        0xE0A0..=0xED9F => when(inner(d), 3),
        0xEE80..=0xEFBF => when(inner(d), 3),
        0xF090..=0xF48F => when(two_inner(d, f), 4),
        _ => 0,
    }
}

// How many bytes the character has that begins with these bytes; 0: none does.
fn size(b: u8, c: u8, d: u8, f: u8) -> usize
    ensures { Led b c d f result }
{
    if b < 128 {
        return 1;
    }
    if inner(c) {
        return long(256 * b as u32 + c as u32, d, f);
    }
    0
}

// How many bytes the character at a place has; 0: none begins there. In a run 0 may be that the run ends within it.
fn character<S: Text>(s: S, at: usize) -> usize
    requires { at < length (S.bytes s) }
    ensures { LedAt (S.bytes s) at result }
{
    size(s.byte(at), s.byte(at + 1), s.byte(at + 2), s.byte(at + 3))
}

// The place behind the bytes below 128 that stand here in a run.
fn near_ascii(run: &[u8], at: usize) -> usize
    requires { Whole run.now at }
    ensures { Plainly run.now at result }
{
    // Stays (point 3): tried; built by Rust's compiler, a `for` takes 1.40 of the instructions over ASCII, and `position` 1.08 where texts are short.
    let mut i = at;
    while i < run.len() && run[i] < 128 {
        i += 1;
    }
    i
}

// What `character` says at a place of a run; most often four bytes stand there.
fn near_character(run: &[u8], i: usize) -> usize
    requires { i < length run.now }
    ensures { LedAt run.now i result }
{
    if run.len() - i < 4 {
        return character(run, i);
    }
    size(run[i], run[i + 1], run[i + 2], run[i + 3])
}

// The place behind the characters that stand whole in a run, from a place behind such ones on.
fn near_characters(run: &[u8], at: usize) -> usize
    requires { Whole run.now at }
    ensures { Whole run.now result }
{
    let mut i = at;
    while i < run.len() {
        let n = near_character(run, i);
        if n == 0 {
            return i;
        }
        i = near_ascii(run, i + n);
    }
    i
}

// The place behind the characters that stand here before the end of the run. Most texts are short and ASCII alone: so it is inlined, as `is_script` is.
#[inline]
fn characters<S: Text>(s: S, at: usize) -> usize
    requires { at ≤ length (S.bytes s) }
    ensures { Behind (S.bytes s) at result }
{
    if s.count() <= at {
        return at;
    }
    let run = s.run(at);
    let n = near_ascii(run, 0);
    if n < run.len() {
        return at + near_characters(run, n);
    }
    at + n
}

// Whether the text is UTF-8 of scalar values.
#[inline]
pub fn is_script<S: Text>(s: S) -> bool
    ensures { Tells (Scripted (S.bytes s)) result }
{
    let mut at = characters(s, 0);
    while at < s.count() {
        let n = character(s, at);
        if n == 0 {
            return false;
        }
        at = characters(s, at + n);
    }
    true
}
