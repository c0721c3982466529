// Values on one line, with all that is below them.
ghost use Rattle.std.specs.Prelude.{◌≡◌, ◌+◌, ◌*◌, ◌≤◌, ◌<◌, length, get_or};
ghost use Rattle.language.specs.Tree.{width};
ghost use Rattle.language.specs.House as house;
ghost use Rattle.writer.specs.Puts.{ceiling, Puts};
ghost use Rattle.writer.specs.Flat.{separator, Inline, Inlines};

use super::Profile;
use super::leaves::scalar;
use super::marks::{put, put_two};

// What stands between a child of this kind and those behind it.
fn between(kind: usize, last: bool, out: &mut [u8], x: usize) -> usize
    requires { x + length (separator kind last) ≤ ceiling }
    ensures { Puts (separator kind last) x result out.old out.new }
{
    if kind == 10 {
        return put_two(out, x, b':', b' ');
    }
    if last {
        return x;
    }
    put_two(out, x, b',', b' ')
}

impl Profile<'_> {
    // A word of a row.
    pub fn word(&self, r: usize, i: usize) -> usize
        requires { width * r + i < length self.now.table.now }
        ensures { result ≡ get_or self.now.table.now (width * r + i) 0 }
    {
        sound::word(self.table, r, i)
    }

    // The value or the key of row r.
    #[cycle(inline_inlines)]
    pub fn inline(&self, r: usize, out: &mut [u8], x: usize) -> usize
        requires { Inline self.now.table.now self.now.text.now r x }
        ensures { (h : Inline self.now.table.now self.now.text.now r x) → Puts (house.inline h.tree) x result out.old out.new }
    {
        let kind = self.word(r, 0);
        match kind {
            8 => {
                let a = put(out, x, b'[');
                let b = self.inlines(r + 1, self.word(r, 6), out, a);
                put(out, b, b']')
            }
            9 => {
                let a = put(out, x, b'{');
                let b = self.inlines(r + 1, self.word(r, 6), out, a);
                put(out, b, b'}')
            }
            _ => {
                let from = self.word(r, 3);
                let to = self.word(r, 4);
                scalar(kind, &self.text[from..to], out, x)
            }
        }
    }

    // The children in the rows from `from` up to `stop`.
    #[cycle(inline_inlines)]
    fn inlines(&self, from: usize, stop: usize, out: &mut [u8], x: usize) -> usize
        requires { Inlines self.now.table.now self.now.text.now from stop x }
        ensures { (h : Inlines self.now.table.now self.now.text.now from stop x) → Puts (house.inlines h.trees) x result out.old out.new }
    {
        let mut at = from;
        let mut y = x;
        while at < stop {
            let z = self.inline(at, out, y);
            let next = self.word(at, 6);
            y = between(self.word(at, 0), next == stop, out, z);
            at = next;
        }
        y
    }

    // The same and an LF.
    pub fn one_line(&self, r: usize, out: &mut [u8], x: usize) -> usize
        requires { Inline self.now.table.now self.now.text.now r x }
        ensures { (h : Inline self.now.table.now self.now.text.now r x) → Puts (house.one_line h.tree) x result out.old out.new }
    {
        let y = self.inline(r, out, x);
        put(out, y, b'\n')
    }
}
