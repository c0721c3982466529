// Scalars and keys in the house style.
// Stays (point 5): output and place go as two, as marks.rt says why; `Scripted` is asked of slices as they come, keys and strings, and a type for them would be made at each call alone.
ghost use Rattle.std.specs.Prelude.{[], ◌∷◌, ◌++◌, ◌+◌, ◌*◌, ◌≤◌, ◌<◌, length};
ghost use Rattle.language.specs.House as house;
ghost use Rattle.shaped.specs.Shaped.{Scripted};
ghost use Rattle.writer.specs.Puts.{ceiling, Puts};
ghost use Rattle.writer.specs.Leaves.{Text, Steps, Spelt};

use super::Step;
use super::codes::{code, digit, is_special, shown, special};
use super::marks::{all, put, put_two};
use super::runs::run;
use characters::Reading;

// A run of characters that are shown as they are, or else one character.
fn step(s: &[u8], at: usize, out: &mut [u8], x: usize) -> Step
    requires { Text s.now at x × (at < length s.now) }
    ensures { Steps s.now at x result out.old out.new }
{
    let b = s[at];
    if is_special(b) {
        return Step {
            at: at + 1,
            x: special(b, out, x),
        };
    }
    let e = run(s, at);
    if at < e {
        return Step {
            at: e,
            x: all(&s[at..e], out, x),
        };
    }
    let c = code(s, at);
    Step {
        at: c.next,
        x: shown(&s[at..c.next], c.value, out, x),
    }
}

// The characters of a text.
fn shown_text(s: &[u8], out: &mut [u8], x: usize) -> usize
    requires { Text s.now 0 x }
    ensures { Puts (house.shown_text s.now) x result out.old out.new }
{
    let mut at = 0;
    let mut y = x;
    while at < s.len() {
        let n = step(s, at, out, y);
        at = n.at;
        y = n.x;
    }
    y
}

// A string in double quotes.
pub fn quoted(s: &[u8], out: &mut [u8], x: usize) -> usize
    requires { Scripted s.now × (x + length (house.quoted s.now) ≤ ceiling) }
    ensures { Puts (house.quoted s.now) x result out.old out.new }
{
    let a = put(out, x, b'"');
    let b = shown_text(s, out, a);
    put(out, b, b'"')
}

// A key: bare wherever it can be.
fn key(s: &[u8], out: &mut [u8], x: usize) -> usize
    requires { Scripted s.now × (x + length (house.scalar_text 10 s.now) ≤ ceiling) }
    ensures { Puts (house.scalar_text 10 s.now) x result out.old out.new }
{
    let here = Reading { at: 0 };
    let run = here.key_bytes(s);
    if run.at == 0 || run.at < s.len() {
        return quoted(s, out, x);
    }
    all(s, out, x)
}

// The pairs of bytes, without spaces.
fn hex_pairs(s: &[u8], out: &mut [u8], x: usize) -> usize
    requires { x + 2 * length s.now ≤ ceiling }
    ensures { Puts (house.hex_pairs s.now) x result out.old out.new }
{
    let end = x + 2 * s.len();
    if out.len() <= x {
        return end;
    }
    for (i, b) in s.iter().enumerate() {
        put_two(out, x + 2 * i, digit(b / 16), digit(b % 16));
    }
    end
}

// Bytes between angles.
fn angled(s: &[u8], out: &mut [u8], x: usize) -> usize
    requires { x + length (60 ∷ house.hex_pairs s.now ++ 62 ∷ []) ≤ ceiling }
    ensures { Puts (60 ∷ house.hex_pairs s.now ++ 62 ∷ []) x result out.old out.new }
{
    let a = put(out, x, b'<');
    let b = hex_pairs(s, out, a);
    put(out, b, b'>')
}
// A scalar or a key of this kind, with this text.
pub fn scalar(kind: usize, s: &[u8], out: &mut [u8], x: usize) -> usize
    requires { Spelt kind s.now x }
    ensures { Puts (house.scalar_text kind s.now) x result out.old out.new }
{
    match kind {
        1 => all(b"null", out, x),
        2 => all(b"false", out, x),
        3 => all(b"true", out, x),
        6 => quoted(s, out, x),
        7 => angled(s, out, x),
        10 => key(s, out, x),
        _ => all(s, out, x),
    }
}
