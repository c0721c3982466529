// Blocks: arrays and objects that are not empty, two spaces a level; and a whole profile.
// Stays (points 5, 6): m and n are columns and no counts of `out`, and `Child` is asked of a row at its column and place: a type with it would be made anew at each row.
ghost use Rattle.std.specs.Prelude.{◌≡◌, true, false, ◌+◌, ◌-◌, ◌≤◌, ◌<◌, length, drop};
ghost use Rattle.language.specs.House as house;
ghost use Rattle.writer.specs.Puts.{Puts};
ghost use Rattle.notation.specs.Class.{pick};
ghost use Rattle.writer.specs.Lines.{Row, Block, Child, child_text, Head, head_text, Root};

use super::Profile;
use super::marks::{put, put_two, spaces};

impl Profile<'_> {
    // Whether row r has no rows below it.
    fn is_flat(&self, r: usize) -> bool
        requires { Row self.now.table.now r }
        ensures { (h : Row self.now.table.now r) → result ≡ house.flat h.tree }
    {
        self.word(r, 6) == r + 1
    }

    // The spaces and the dash before an item, or the key and the colon before a value.
    fn head(&self, r: usize, item: bool, m: usize, out: &mut [u8], x: usize) -> usize
        requires { Head self.now.table.now self.now.text.now r item m x }
        ensures { (h : Head self.now.table.now self.now.text.now r item m x) → Puts (head_text item m h.tree) x result out.old out.new }
    {
        let a = spaces(out, x, m);
        if item {
            return put_two(out, a, b'-', b' ');
        }
        let b = self.inline(r, out, a);
        put(out, b, b':')
    }

    // What stands behind an item's dash: "An array inside an array goes on one line".
    #[cycle(block_child_item_value)]
    fn item(&self, r: usize, n: usize, out: &mut [u8], x: usize) -> usize
        requires { Child self.now.table.now self.now.text.now r true n x }
        ensures { (h : Child self.now.table.now self.now.text.now r true n x) → Puts (child_text true n h.tree) x result out.old out.new }
    {
        if self.is_flat(r) {
            return self.one_line(r, out, x);
        }
        if self.word(r, 0) == 8 {
            return self.one_line(r, out, x);
        }
        self.block(r, n + 2, 0, out, x)
    }

    // What stands behind a property's colon.
    #[cycle(block_child_item_value)]
    fn value(&self, r: usize, n: usize, out: &mut [u8], x: usize) -> usize
        requires { Child self.now.table.now self.now.text.now r false n x }
        ensures { (h : Child self.now.table.now self.now.text.now r false n x) → Puts (child_text false n h.tree) x result out.old out.new }
    {
        if self.is_flat(r) {
            let y = put(out, x, b' ');
            return self.one_line(r, out, y);
        }
        let y = put(out, x, b'\n');
        self.block(r, n + 2, n + 2, out, y)
    }

    // What stands behind an item's dash, or behind a property's colon, at the column n.
    #[cycle(block_child_item_value)]
    fn child(&self, r: usize, array: bool, n: usize, out: &mut [u8], x: usize) -> usize
        requires { Child self.now.table.now self.now.text.now r array n x }
        ensures { (h : Child self.now.table.now self.now.text.now r array n x) → Puts (child_text array n h.tree) x result out.old out.new }
    {
        if array {
            return self.item(r, n, out, x);
        }
        self.value(r, n, out, x)
    }

    // The lines of row r's children at the column n; the first begins behind `lead` spaces.
    #[cycle(block_child_item_value)]
    fn block(&self, r: usize, n: usize, lead: usize, out: &mut [u8], x: usize) -> usize
        requires { Block self.now.table.now self.now.text.now r n lead x }
        ensures { (h : Block self.now.table.now self.now.text.now r n lead x) → Puts (drop (n - lead) (house.block n h.tree)) x result out.old out.new }
    {
        let item = self.word(r, 0) == 8;
        let stop = self.word(r, 6);
        let skipped = skip(item);
        let mut at = r + 1;
        let mut y = x;
        let mut m = lead;
        while at < stop {
            let a = self.head(at, item, m, out, y);
            let v = at + skipped;
            y = self.child(v, item, n, out, a);
            at = self.word(v, 6);
            m = n;
        }
        y
    }

    // The whole profile, whose root is row 0.
    pub fn house(&self, out: &mut [u8]) -> usize
        requires { Root self.now.table.now self.now.text.now }
        ensures { (h : Root self.now.table.now self.now.text.now) → Puts (house.house h.tree) 0 result out.old out.new }
    {
        if self.is_flat(0) {
            return self.one_line(0, out, 0);
        }
        self.block(0, 0, 0, out, 0)
    }

    // How many bytes that are: the same walk, into a room that has next to none.
    pub fn count(&self) -> usize
        requires { Root self.now.table.now self.now.text.now }
        ensures { (h : Root self.now.table.now self.now.text.now) → result ≡ length (house.house h.tree) }
    {
        let mut room = [0u8; 1];
        self.house(&mut room)
    }
}

// How many rows a value stands behind its key, or an item behind itself.
fn skip(item: bool) -> usize
    ensures { (result ≡ pick item 0 1) × (result ≤ 1) }
{
    if item { 0 } else { 1 }
}
