// Lines and columns, told in one walk over the document beside its rows. Where neither an LF nor a tail byte of a character lies before the next row, that row costs two tests.
#![tactic(auto)]

ghost use Rattle.std.specs.Prelude.{◌≡◌, ◌+◌, ◌≤◌, ◌<◌, length, get_or};
ghost use Rattle.language.specs.Answered.{limit};
ghost use Rattle.language.specs.Lines.{lines_of};
ghost use Rattle.lined.specs.Counted.{range, hit};
ghost use Rattle.lined.specs.Between.{between};
ghost use Rattle.lined.specs.Searching.{Spot, First, Last, Clear, Next, Soon, Near, Behind};
ghost use Rattle.lined.specs.Walking.{Stands, At};
ghost use Rattle.lined.specs.Lined.{lined, Ranked};

use language::WIDTH;

// Where the walk stands: the line; its begin and as many more as tail bytes were passed in it, so that the column of p is p + 1 - start; the next LF, or a place behind the last row; a place up to which no tail byte comes.
#[derive(Clone, Copy)]
struct Walk {
    line: u32,
    start: usize,
    feed: usize,
    tail: usize,
}

// 1 for a byte from LO to HI, and 0 for any other.
// Stays (point 1): a count, which is summed, and 0 is one like another.
fn hit<const LO: u8, const HI: u8>(b: u8) -> u8
    ensures { result ≡ hit (range LO HI) b }
{
    if LO <= b && b <= HI { 1 } else { 0 }
}

// How many of at most 64 bytes are from LO to HI. The loop has no exit, so that it becomes vector code.
// Stays (point 6): no plainer. The contract counts in the document, from one place up to another (`between`), and so does the caller.
fn few<const LO: u8, const HI: u8>(doc: &[u8], a: usize, n: usize) -> u8
    requires { (a + n ≤ length doc.now) × (n ≤ 64) }
    ensures { result ≡ between (range LO HI) doc.now a (a + n) }
{
    let mut m = 0;
    for i in 0..n {
        m += hit::<LO, HI>(doc[a + i]);
    }
    m
}

// How many of the first n of 32 bytes are from LO to HI. All 32 are looked at, so that nothing depends on n but a mask.
fn some<const LO: u8, const HI: u8>(doc: &[u8], a: usize, n: u8) -> u8
    requires { (a + 32 ≤ length doc.now) × (n ≤ 32) }
    ensures { result ≡ between (range LO HI) doc.now a (a + n) }
{
    let mut m = 0;
    for i in 0..32 {
        m += hit::<LO, HI>(doc[a + i]).min(n.max(i as u8) - i as u8);
    }
    m
}

// How many of the bytes from a up to e are from LO to HI. It is put into no caller: those stay small.
#[inline(never)]
fn count<const LO: u8, const HI: u8>(doc: &[u8], a: usize, e: usize) -> u32
    requires { (a ≤ e) × (e ≤ length doc.now) × (length doc.now ≤ limit) }
    ensures { result ≡ between (range LO HI) doc.now a e }
{
    let mut n = 0;
    let mut i = a;
    // Stays (point 3): no plainer. A step is a block of 64 bytes, a number that `few` has to see so that it becomes vector code, and the rest comes after the loop.
    while 64 < e - i {
        n += few::<LO, HI>(doc, i, 64) as u32;
        i += 64;
    }
    n + few::<LO, HI>(doc, i, e - i) as u32
}

// i for a byte from LO to HI, and `other` for any other.
fn spot<const LO: u8, const HI: u8>(b: u8, i: u8, other: u8) -> u8
    ensures { Spot (range LO HI) b i other result }
{
    if hit::<LO, HI>(b) == 0 { other } else { i }
}

// Which of 64 bytes is the first from LO to HI, or 64. The loop has no exit, so that it becomes vector code.
fn first<const LO: u8, const HI: u8>(doc: &[u8], a: usize) -> u8
    requires { a + 64 ≤ length doc.now }
    ensures { First (range LO HI) doc.now a 64 result }
{
    let mut m = 64u8;
    for i in 0..64 {
        m = spot::<LO, HI>(doc[a + i], i as u8, 64).min(m);
    }
    m
}

// Where the next byte from LO to HI stands, or `end`, byte by byte.
fn rest<const LO: u8, const HI: u8>(doc: &[u8], at: usize, end: usize) -> usize
    requires { (at ≤ end) × (end ≤ length doc.now) }
    ensures { Next (range LO HI) doc.now end at result }
{
    for a in at..end {
        if hit::<LO, HI>(doc[a]) == 1 {
            return a;
        }
    }
    end
}

// The same by blocks of 64 bytes, or a place behind `end`.
fn next<const LO: u8, const HI: u8>(doc: &[u8], at: usize, end: usize) -> usize
    requires { (at ≤ length doc.now) × (end ≤ length doc.now) }
    ensures { Next (range LO HI) doc.now end at result }
{
    let mut a = at;
    // Stays (point 3): no plainer. A step is a block of 64 bytes, and the last block may go beyond `end`.
    while a < end {
        if doc.len() - a < 64 {
            return rest::<LO, HI>(doc, a, end);
        }
        let k = first::<LO, HI>(doc, a);
        if k < 64 {
            return a + k as usize;
        }
        a += 64;
    }
    a
}

// i for an LF, and for any other byte mostly more than 63: sums and no tests, which is less vector code.
fn key(b: u8, i: u8) -> u8
    requires { i ≤ 63 }
    ensures { b ≡ 10 → result ≡ i }
{
    (b - b.min(10)).min(96) * 2 + i
}

// No LF stands before the least key of 32 bytes.
fn near(doc: &[u8], a: usize) -> u8
    requires { a + 32 ≤ length doc.now }
    ensures { Near doc.now a 32 result }
{
    let mut m = 255u8;
    for i in 0..32 {
        m = key(doc[a + i], i as u8).min(m);
    }
    m
}

// How far the next LF is if it is seen among 32 bytes, or 32.
fn soon(doc: &[u8], at: usize) -> usize
    requires { at ≤ length doc.now }
    ensures { Soon doc.now at result }
{
    if doc.len() - at < 32 {
        return 32;
    }
    let k = near(doc, at) as usize;
    if k < 32 && doc[at + k] == b'\n' {
        k
    } else {
        32
    }
}

// Where the next LF stands, or a place behind `end`. Mostly it is near.
fn feed(doc: &[u8], at: usize, end: usize) -> usize
    requires { (at ≤ length doc.now) × (end ≤ length doc.now) }
    ensures { Next (range 10 10) doc.now end at result }
{
    let k = soon(doc, at);
    if k < 32 {
        return at + k;
    }
    next::<b'\n', b'\n'>(doc, at, end)
}

// The most of the bytes up to `end`.
fn highest(doc: &[u8], end: usize) -> u8
    requires { end ≤ length doc.now }
    ensures { result < 128 → Clear (range 128 191) doc.now 0 end }
{
    let mut m = 0u8;
    for i in 0..end {
        m = doc[i].max(m);
    }
    m
}

// A place up to which no tail byte comes: all, or none.
fn early(doc: &[u8], end: usize) -> usize
    requires { end ≤ length doc.now }
    ensures { Clear (range 128 191) doc.now 0 result }
{
    if highest(doc, end) < 128 { end } else { 0 }
}

// How many of 64 bytes it is to behind the last LF, or 0. The loop has no exit, so that it becomes vector code.
fn last(doc: &[u8], a: usize) -> u8
    requires { a + 64 ≤ length doc.now }
    ensures { Last (range 10 10) doc.now a 64 result }
{
    let mut m = 0u8;
    for i in 0..64 {
        m = spot::<b'\n', b'\n'>(doc[a + i], i as u8 + 1, 0).max(m);
    }
    m
}

// The place behind the last LF before e, byte by byte; one stands at a.
fn back(doc: &[u8], a: usize, e: usize) -> usize
    requires { (a < e) × (e ≤ length doc.now) × (hit (range 10 10) (get_or doc.now a 0) ≡ 1) }
    ensures { Behind doc.now a e result }
{
    for i in (a + 1..e).rev() {
        if doc[i] == b'\n' {
            return i + 1;
        }
    }
    a + 1
}

// The same by blocks of 64 bytes, where the LF that is known is not near.
fn behind(doc: &[u8], a: usize, e: usize) -> usize
    requires { (a < e) × (e ≤ length doc.now) × (hit (range 10 10) (get_or doc.now a 0) ≡ 1) }
    ensures { Behind doc.now a e result }
{
    if e - a <= 17 {
        return back(doc, a, e);
    }
    let mut i = e;
    // Stays (point 3): no plainer. A step is a block of 64 bytes, which may begin before a.
    while 64 <= i {
        let k = last(doc, i - 64);
        if 0 < k {
            return i - 64 + k as usize;
        }
        i -= 64;
    }
    back(doc, a, i)
}

// How many tail bytes stand from a up to e. Where rows follow close on one another they are counted at one go.
fn tails(doc: &[u8], a: usize, e: usize) -> u32
    requires { (a ≤ e) × (e ≤ length doc.now) × (length doc.now ≤ limit) }
    ensures { result ≡ between (range 128 191) doc.now a e }
{
    if 32 < e - a || doc.len() - a < 32 {
        return count::<128, 191>(doc, a, e);
    }
    some::<128, 191>(doc, a, (e - a) as u8) as u32
}

// How many LFs stand from a up to e; one stands at a, and the last of them before `start`. Mostly it is the same one.
fn lines(doc: &[u8], a: usize, start: usize, e: usize) -> u32
    requires { (a < e) × (e ≤ length doc.now) × (length doc.now ≤ limit) × (hit (range 10 10) (get_or doc.now a 0) ≡ 1) × Behind doc.now a e start }
    ensures { result ≡ between (range 10 10) doc.now a e }
{
    if start == a + 1 {
        1
    } else {
        count::<b'\n', b'\n'>(doc, a, e)
    }
}

// Stays (point 5): Stands is a fact of the walk and of the place that it has reached, which is no field of it, so a ghost field could not say it.
impl Walk {
    // On to p, which is in a later line.
    fn down(self, doc: &[u8], p: usize, end: usize) -> Walk
        requires { Stands doc.now end p self × (self.feed < p) }
        ensures { Stands doc.now end p result × (p ≤ result.feed) }
    {
        let from = self.feed;
        let start = behind(doc, from, p);
        let line = self.line + lines(doc, from, start, p);
        let feed = feed(doc, p, end);
        let tail = self.tail.max(start);
        Walk {
            line,
            start,
            feed,
            tail,
        }
    }

    // On to p, which is in the same line. Where tails were passed the next one is near, and is not looked for. The walk is made anew, so that it stays in registers.
    // All fields are written, since with `self` and `..self` the reader of nested values takes 1.6 instead of 0.8 percent more instructions.
    fn along(self, doc: &[u8], p: usize, end: usize) -> Walk
        requires { Stands doc.now end p self × (p ≤ self.feed) }
        ensures { At doc.now end p result }
    {
        if p <= self.tail {
            return Walk {
                line: self.line,
                start: self.start,
                feed: self.feed,
                tail: self.tail,
            };
        }
        let more = tails(doc, self.tail, p);
        let start = self.start + more as usize;
        if 0 < more {
            return Walk {
                line: self.line,
                start,
                feed: self.feed,
                tail: p,
            };
        }
        let tail = next::<128, 191>(doc, p, end);
        Walk {
            line: self.line,
            start,
            feed: self.feed,
            tail,
        }
    }

    // On to p.
    fn reach(self, doc: &[u8], p: usize, end: usize) -> Walk
        requires { Stands doc.now end p self }
        ensures { At doc.now end p result }
    {
        if self.feed < p {
            let w = self.down(doc, p, end);
            return w.along(doc, p, end);
        }
        self.along(doc, p, end)
    }
}

// The line and the column of each of the first n rows, stored in its last two words. Nothing is looked for behind the last one's first byte.
// Stays (point 6): a table is lent through the C interface with its count of rows beside it, and may be longer.
pub fn line_up(doc: &[u8], table: &mut [u32], n: usize)
    requires { Ranked doc.now table.old n }
    ensures { table.new ≡ lined (lines_of doc.now) n table.old }
{
    if n == 0 {
        return;
    }
    let end = table[WIDTH * (n - 1) + 1] as usize;
    let mut w = Walk {
        line: 1,
        start: 0,
        feed: feed(doc, 0, end),
        tail: early(doc, end),
    };
    for r in 0..n {
        let i = WIDTH * r;
        let p = table[i + 1] as usize;
        w = w.reach(doc, p, end);
        table[i + 7] = w.line;
        table[i + 8] = (p + 1 - w.start) as u32;
    }
}
