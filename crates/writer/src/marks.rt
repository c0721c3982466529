// Bytes written one behind another: each function answers the place behind what it wrote. A store past the output's end changes nothing, so that the same
// functions count the bytes, with an empty output, and write them.
// Stays (point 5): output and place go as two. The place is a value that each call answers, and its contract is said of that value; a pen with both behind `&mut self` would say it of a field before and after.
// Stays (point 6): n spaces are written, and `out` has its own length.
ghost use Rattle.std.specs.Prelude.{◌≡◌, [], ◌∷◌, ◌+◌, ◌≤◌, ◌<◌, length};
ghost use Rattle.language.specs.BlockText as text;
ghost use Rattle.writer.specs.Puts.{ceiling, Puts};

use rooms::put_byte;

// A byte.
pub fn put(out: &mut [u8], x: usize, b: u8) -> usize
    requires { x < ceiling }
    ensures { Puts (b ∷ []) x result out.old out.new }
{
    put_byte(out, x, b);
    x + 1
}

// Two bytes.
pub fn put_two(out: &mut [u8], x: usize, a: u8, b: u8) -> usize
    requires { x + 2 ≤ ceiling }
    ensures { Puts (a ∷ b ∷ []) x result out.old out.new }
{
    let y = put(out, x, a);
    put(out, y, b)
}

// All bytes of a text, as far as there is room for them.
pub fn all(text: &[u8], out: &mut [u8], x: usize) -> usize
    requires { x + length text.now ≤ ceiling }
    ensures { Puts text.now x result out.old out.new }
{
    let y = x + text.len();
    if out.len() <= x {
        return y;
    }
    let n = text.len().min(out.len() - x);
    // No copy_from_slice: most texts have a few bytes, and with its call writing took 1.2 times as long (nested-1k, records-1k).
    for i in 0..n {
        out[x + i] = text[i];
    }
    y
}

// n spaces.
pub fn spaces(out: &mut [u8], x: usize, n: usize) -> usize
    requires { x + n ≤ ceiling }
    ensures { Puts (text.spaces n) x result out.old out.new }
{
    for i in 0..n {
        put_byte(out, x + i, b' ');
    }
    x + n
}
