// The field of a row: its content, and then, once that is known, its head.
// Stays (point 6): n and m are how many bytes a content or a part has, as its head says, and `out` is the whole output.
#![tactic(auto)]

ghost use Rattle.std.specs.Prelude.{◌≡◌, [], ◌∷◌, ◌+◌, ◌-◌, ◌*◌, ◌/◌, ◌%◌, ◌≤◌, ◌<◌, length, get_or};
ghost use Rattle.std.proofs.lemmas.List.Edits.{sets};
ghost use Rattle.std.proofs.Math.Seq.{slice};
ghost use Rattle.language.specs.Tree.{width};
ghost use Rattle.stored.specs.Form as form;
ghost use Rattle.fields.specs.Puts.{Puts};
ghost use Rattle.fields.specs.Spread.{between, Moves, Spreads, Closes};
ghost use Rattle.fields.specs.Fields.{Field, Content, Leaf, Fields};
ghost use Rattle.fields.specs.Ends.{end_below};
ghost use Rattle.fields.specs.Measured.{Measured, MeasuredAll};

use language::{Kind, WIDTH};
use rooms::put_byte;
use stored::WIDEST;

// The tag of a part.
const PART: usize = 11;

// A word of a row.
// Stays (point 2): `sound` has the same, and stands on nine crates that this one does not need.
fn word(table: &[u32], r: usize, i: usize) -> usize
    requires { width * r + i < length table.now }
    ensures { result ≡ get_or table.now (width * r + i) 0 }
{
    table[WIDTH * r + i] as usize
}

// The end of the last text of a table's rows: how many bytes of text they have.
pub fn text_end(table: &[u32], rows: usize) -> usize
    requires { width * rows ≤ length table.now }
    ensures { result ≡ end_below table.now rows }
{
    for r in (0..rows).rev() {
        if Kind(table[WIDTH * r]).has_text() {
            return word(table, r, 4);
        }
    }
    0
}

// Tag and length, high byte first.
#[tactic(auto, using(crate::specs::Fields::three))]
fn head(out: &mut [u8], x: usize, kind: usize, n: usize)
    requires { (kind < 256) × (n < 65536) × (x + 3 ≤ length out.old) }
    ensures { out.new ≡ sets out.old x (kind ∷ n / 256 ∷ n % 256 ∷ []) }
{
    put_byte(out, x, kind as u8);
    put_byte(out, x + 1, (n / 256) as u8);
    put_byte(out, x + 2, (n % 256) as u8);
}

// The bytes of the text from a to e, all of which have room.
pub fn part(text: &[u8], a: usize, e: usize, out: &mut [u8], x: usize)
    requires { (a ≤ e) × (e ≤ length text.now) × (x + (e - a) ≤ length out.old) }
    ensures { out.new ≡ sets out.old x (slice a e text.now) }
{
    // No copy_from_slice: most texts have a few bytes, and with its call loading took 1.33 times as long (nested-1k, records-1k).
    for i in 0..e - a {
        out[x + i] = text[a + i];
    }
}

// A part, or the end of a content: the k-th, of m bytes, is moved behind the heads of those before it.
// It is put into no caller: where m is known when it is compiled, bytes are moved one by one, not 32 at a time.
#[inline(never)]
fn part_at(out: &mut [u8], x: usize, k: usize, tag: usize, m: usize)
    requires { Moves (length out.old) x k tag m }
    ensures { out.new ≡ sets out.old (x + 65538 * k) (form.tagged tag (slice (x + 3 + 65535 * k) (x + 3 + 65535 * k + m) out.old)) }
{
    let at = x + (WIDEST + 3) * k;
    let from = x + 3 + WIDEST * k;
    out.copy_within(from..from + m, at + 3);
    head(out, at, tag, m);
}

// A content of n bytes, more than one field holds, which stands behind the place of its first head, in its parts: the last come first.
fn parts(out: &mut [u8], x: usize, kind: usize, n: usize)
    requires { Spreads out.old x kind n }
    ensures { out.new ≡ sets out.old x (form.cut kind (between out.old x kind n)) }
{
    let last = (n - 1) / WIDEST;
    part_at(out, x, last, kind, n - WIDEST * last);
    for k in (1..last).rev() {
        part_at(out, x, k, PART, WIDEST);
    }
    head(out, x, PART, WIDEST);
}

// The heads of a content of n bytes.
fn heads(n: usize) -> usize
    ensures { (result ≡ 3 * ((n - 1) / 65535 + 1)) × (result ≤ n + 3) }
{
    if n <= WIDEST {
        3
    } else {
        3 * ((n - 1) / WIDEST + 1)
    }
}

// A content from x + 3 up to y gets its heads; the place behind it.
fn closed(out: &mut [u8], x: usize, kind: usize, y: usize) -> usize
    requires { Closes out.old x kind y }
    ensures { Puts (form.cut kind (slice (x + 3) y out.old)) x result out.old out.new }
{
    let n = y - (x + 3);
    if n <= WIDEST {
        head(out, x, kind, n);
        return y;
    }
    parts(out, x, kind, n);
    x + n + heads(n)
}

// The content of a row that is no container's: its text, which kinds 1 to 3 have none of.
fn leaf(table: &[u32], text: &[u8], r: usize, out: &mut [u8], x: usize) -> usize
    requires { Leaf table.now text.now (length out.old) r x }
    ensures { (h : Leaf table.now text.now (length out.old) r x) → Puts (form.content h.asked.tree) x result out.old out.new }
{
    let from = word(table, r, 3);
    let to = word(table, r, 4);
    part(text, from, to, out, x);
    x + (to - from)
}

// The cycle. The field of row r, from x on; the place behind it.
#[cycle(content_field_fields)]
pub fn field(table: &[u32], text: &[u8], r: usize, out: &mut [u8], x: usize) -> usize
    requires { Field table.now text.now (length out.old) r x }
    ensures { (h : Field table.now text.now (length out.old) r x) → Puts (form.form h.tree) x result out.old out.new }
{
    let y = content(table, text, r, out, x + 3);
    closed(out, x, word(table, r, 0), y)
}

// Its content: the fields of the children, or the text.
#[cycle(content_field_fields)]
fn content(table: &[u32], text: &[u8], r: usize, out: &mut [u8], x: usize) -> usize
    requires { Content table.now text.now (length out.old) r x }
    ensures { (h : Content table.now text.now (length out.old) r x) → Puts (form.content h.tree) x result out.old out.new }
{
    let kind = word(table, r, 0);
    if kind == 8 || kind == 9 {
        return fields(table, text, r + 1, word(table, r, 6), out, x);
    }
    leaf(table, text, r, out, x)
}

// The fields of the children in the rows from `from` up to `stop`.
#[cycle(content_field_fields)]
fn fields(table: &[u32], text: &[u8], from: usize, stop: usize, out: &mut [u8], x: usize) -> usize
    requires { Fields table.now text.now (length out.old) from stop x }
    ensures { (h : Fields table.now text.now (length out.old) from stop x) → Puts (form.forms h.trees) x result out.old out.new }
{
    let mut at = from;
    let mut y = x;
    while at < stop {
        y = field(table, text, at, out, y);
        at = word(table, at, 6);
    }
    y
}

// The cycle. How many bytes the field of row r has.
#[cycle(content_length_field_length_fields_length)]
#[tactic(auto, using(crate::specs::Measured::measuring))]
pub fn field_length(table: &[u32], r: usize) -> usize
    requires { Measured table.now r }
    ensures { (h : Measured table.now r) → result ≡ length (form.form h.tree) }
{
    let n = content_length(table, r);
    n + heads(n)
}

// How many its content has.
#[cycle(content_length_field_length_fields_length)]
#[tactic(auto, using(crate::specs::Measured::measuring))]
fn content_length(table: &[u32], r: usize) -> usize
    requires { Measured table.now r }
    ensures { (h : Measured table.now r) → result ≡ length (form.content h.tree) }
{
    let kind = word(table, r, 0);
    if kind == 8 || kind == 9 {
        return fields_length(table, r + 1, word(table, r, 6));
    }
    word(table, r, 4) - word(table, r, 3)
}

// How many the fields of the children in the rows from `from` up to `stop` have.
#[cycle(content_length_field_length_fields_length)]
fn fields_length(table: &[u32], from: usize, stop: usize) -> usize
    requires { MeasuredAll table.now from stop }
    ensures { (h : MeasuredAll table.now from stop) → result ≡ length (form.forms h.trees) }
{
    let mut row = from;
    let mut n = 0;
    while row < stop {
        n += field_length(table, row);
        row = word(table, row, 6);
    }
    n
}
