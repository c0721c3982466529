// The reading cursor, and the stores into the rooms lent. A store past a room's end changes nothing, so that the same readers check a document, with empty
// rooms, and fill the rooms.
#![tactic(auto)]

ghost use Rattle.std.specs.Prelude.{◌≡◌, ℕ, ◌+◌, ◌*◌, ◌≤◌, ◌<◌, max, min, length, set, take, drop};
ghost use Rattle.std.proofs.lemmas.List.Edits.{sets};
ghost use Rattle.std.proofs.Math.Seq.{slice};
ghost use Rattle.exact.specs.Place.{peek, common};
ghost use Rattle.exact.specs.Block.{lead};
ghost use Rattle.language.specs.Tree.{width, unlined, row_list};
ghost use Rattle.rooms.specs.Told as told;
ghost use Rattle.rooms.specs.Contract.{ample, Stepped, Takes, Small};

use language::{Kind, WIDTH};

// An escape in a cursor's text word; every text byte is below it.
pub const ESCAPE: usize = 4294967296;

// Where a reader stands: the byte and the row that come next, and the text byte that comes next with the escapes read so far, in one word.
// Stays (point 5): with a word each for the text byte and the escapes, reading takes a quarter more time (specs/Told.antt).
#[derive(Clone, Copy)]
pub struct Cursor {
    pub at: usize,
    pub row: usize,
    pub text: usize,
}

// What a reader answers: the cursor after what it read, or the place where it is refused.
pub type Ans = Result<Cursor, usize>;

// The same with the place up to which something longer stays viable, 0 for none.
// Stays (point 1): `reached` has it so, and readers take the greater of two such places, which with Options would be no plainer.
pub type Far = Result<(Cursor, usize), usize>;

// What the reader of a block answers: the same, with the place where the span of what it read ends.
pub type Block = Result<(Cursor, usize, usize), usize>;

// An answer made anew, field by field: one that a callee wrote and that is handed on whole is read back in wide words, which waits for its narrow stores.
// Stays (point 4), as `anew_far`, `anew_block` and `Cursor::anew` do: handed on whole is slower (docs/BENCHMARKS.md, "Answers and cursors").
pub fn anew(a: Ans) -> Ans
    ensures { result ≡ a }
{
    match a {
        Ok(n) => Ok(n),
        Err(p) => Err(p),
    }
}

pub fn anew_far(a: Far) -> Far
    ensures { result ≡ a }
{
    match a {
        Ok((n, far)) => Ok((n, far)),
        Err(p) => Err(p),
    }
}

pub fn anew_block(a: Block) -> Block
    ensures { result ≡ a }
{
    match a {
        Ok((n, far, e)) => Ok((n, far, e)),
        Err(p) => Err(p),
    }
}

// The words of a row but its line and column, which are told once all rows are read.
#[derive(Clone, Copy)]
pub struct Words {
    pub kind: u32,
    pub first: u32,
    pub after: u32,
    pub from: u32,
    pub to: u32,
    pub parent: u32,
    pub next: u32,
}

impl Cursor {
    // The cursor made anew: one that its maker wrote field by field and that is handed on whole is copied in wide words, which wait for the narrow stores.
    // Its row, at most its place, is taken as the lesser of the two, so that it is no copy.
    pub fn anew(self) -> Cursor
        requires { self.row ≤ self.at }
        ensures { result ≡ self }
    {
        Cursor {
            at: self.at,
            row: self.row.min(self.at),
            text: self.text,
        }
    }

    // The text byte that comes next.
    pub fn spot(self) -> usize
        ensures { result ≡ told.spot self.text }
    {
        self.text % ESCAPE
    }

    // The escapes read so far.
    pub fn tally(self) -> usize
        ensures { result ≡ told.tally self.text }
    {
        self.text / ESCAPE
    }

    // The byte at the cursor, 256 at the end.
    // Stays (point 1): `peek`, by which the laws of readers speak, is 256 there, and `c.look(doc) == 58` would be no plainer with Some.
    pub fn look(self, doc: &[u8]) -> u32
        ensures { result ≡ peek doc.now self.at }
    {
        match doc.get(self.at) {
            Some(b) => *b as u32,
            None => 256,
        }
    }

    // The byte at the cursor, and the cursor behind it; none at the document's end.
    #[tactic(auto, using(crate::specs::Laws::stepped, crate::specs::Laws::stepped_over))]
    pub fn step(self, doc: &[u8]) -> Option<(u8, Cursor)>
        ensures { Stepped doc.now self result }
    {
        let at = self.at;
        if at < doc.len() {
            let next = Cursor {
                at: at + 1,
                row: self.row,
                text: self.text,
            };
            Some((doc[at], next))
        } else {
            None
        }
    }

    // The byte b, taken: the cursor behind it, or the place where another stands.
    #[tactic(auto, using(crate::specs::Laws::takes_it, crate::specs::Laws::takes_other, crate::specs::Laws::takes_none))]
    pub fn take(self, doc: &[u8], b: u8) -> Ans
        ensures { Takes doc.now self b result }
    {
        let at = self.at;
        match self.step(doc) {
            Some((got, n)) if got == b => Ok(n),
            _ => Err(at),
        }
    }

    // How many spaces stand here, of n.
    // Stays (point 6): n is how many are asked for, and no count of the document's bytes.
    pub fn indent(self, doc: &[u8], n: usize) -> usize
        requires { self.at ≤ length doc.now }
        ensures { (result ≡ lead n (drop self.at doc.now)) × (result ≤ n) × (self.at + result ≤ length doc.now) }
    {
        let at = self.at;
        let most = n.min(doc.len() - at);
        for i in 0..most {
            if doc[at + i] != b' ' {
                return i;
            }
        }
        most
    }
}

// How many bytes of the word stand at `at`.
// Stays (point 4): it tells how many are the same, which a comparison of slices does not.
pub fn same(doc: &[u8], at: usize, word: &[u8]) -> usize
    requires { at ≤ length doc.now }
    ensures { (result ≡ common word.now (drop at doc.now)) × (at + result ≤ length doc.now) }
{
    let most = word.len().min(doc.len() - at);
    for n in 0..most {
        if doc[at + n] != word[n] {
            return n;
        }
    }
    most
}

// A byte stored, where there is room.
pub fn put_byte(text: &mut [u8], i: usize, v: u8)
    ensures { text.new ≡ set text.old i v }
{
    if i < text.len() {
        text[i] = v;
    }
}

// The document's bytes from a to e, stored from x on, as many as have room.
pub fn copy(doc: &[u8], a: usize, e: usize, text: &mut [u8], x: usize)
    requires { (a ≤ e) × (e ≤ length doc.now) × (x + e < ample) }
    ensures { text.new ≡ sets text.old x (slice a e doc.now) }
{
    if x < text.len() {
        let n = (e - a).min(text.len() - x);
        // A loop, since most runs are short: by the slice's own copy reading takes 1.11 of the time in the mean, and 1.24 at most.
        for i in 0..n {
            text[x + i] = doc[a + i];
        }
    }
}

// These words from i on, of which the last may have no room. It is put into no caller, so that those stay small.
#[inline(never)]
fn put_part(rows: &mut [u32], i: usize, words: &[u32])
    requires start { i ≤ length rows.old }
    requires few { length rows.old ≤ i + length words.now }
    ensures { rows.new ≡ sets rows.old i words.now }
{
    let n = rows.len() - i;
    // A loop, as in each copy here: with the slice's own the archive for C asks for memmove.
    for k in 0..n {
        rows[i + k] = words[k];
    }
}

// The words of a row: one test, then plain stores.
// Stays (point 6): as one array that is copied whole, reading records takes 1.30 of the time before, and 1.09 by these stores in the same minutes.
pub fn put_row(rows: &mut [u32], row: usize, w: Words)
    requires { row < ample }
    ensures { rows.new ≡ sets rows.old (width * row) (row_list unlined w.kind w.first w.after w.from w.to w.parent w.next) }
{
    let i = WIDTH * row;
    if rows.len() < i + WIDTH {
        if i < rows.len() {
            let words = [
                w.kind, w.first, w.after, w.from, w.to, w.parent, w.next, 0, 0,
            ];
            put_part(rows, i, &words);
        }
        return;
    }
    rows[i] = w.kind;
    rows[i + 1] = w.first;
    rows[i + 2] = w.after;
    rows[i + 3] = w.from;
    rows[i + 4] = w.to;
    rows[i + 5] = w.parent;
    rows[i + 6] = w.next;
    rows[i + 7] = 0;
    rows[i + 8] = 0;
}

// The words of a row of numbers that fit.
pub fn row_of(
    kind: Kind,
    first: usize,
    after: usize,
    from: usize,
    to: usize,
    parent: u32,
    next: usize,
) -> Words
    requires { Small first after from to next }
    ensures { result ≡ record { kind = kind.0; first = first; after = after; from = from; to = to; parent = parent; next = next } }
{
    Words {
        kind: kind.0,
        first: first as u32,
        after: after as u32,
        from: from as u32,
        to: to as u32,
        parent,
        next: next as u32,
    }
}
