// The plain bytes of a string: a run of them is passed at once.
ghost use Rattle.std.specs.Prelude.{◌≡◌, true, ◌+◌, ◌≤◌, length};
ghost use Rattle.exact.specs.Class.{is};
ghost use Rattle.characters.specs.Plains.{Quote, plain_of, RunTo, Passing, Near};

use super::Reading;

// Stays (point 5), here and in strings: `Quote` is asked of a byte, since the document's bytes are compared with it; an enum would be turned into one each time.
// Whether a byte is plain: a character below 128 that is neither the quote nor a backslash.
#[tactic(auto, using(crate::proofs::Plains::plainbytes))]
pub fn is_plain(b: u8, quote: u8) -> bool
    requires { Quote quote }
    ensures { result ≡ is (plain_of quote) b }
{
    32 <= b && b <= 126 && b != quote && b != b'\\'
}

// Whether the 64 bytes from `at` on are all plain. They are counted, with no way out of the loop, so that many are tested at once.
fn all_plain(doc: &[u8], at: usize, quote: u8) -> bool
    requires { (at + 64 ≤ length doc.now) × Quote quote }
    ensures { result ≡ true → Passing (plain_of quote) doc.now at (at + 64) }
{
    let mut n: u8 = 0;
    for i in 0..64 {
        if is_plain(doc[at + i], quote) {
            n += 1;
        }
    }
    n == 64
}

// The place behind as many 64 plain bytes as stand at `at`.
#[tactic(auto, using(crate::proofs::Plains::blocks_first, crate::proofs::Plains::blocks_more, crate::proofs::Plains::blocks_all, crate::proofs::Plains::plains))]
fn plain_blocks(doc: &[u8], at: usize, quote: u8) -> usize
    requires { (at ≤ length doc.now) × Quote quote }
    ensures { Passing (plain_of quote) doc.now at result }
{
    let n = (doc.len() - at) / 64;
    for i in 0..n {
        if !all_plain(doc, at + 64 * i, quote) {
            return at + 64 * i;
        }
    }
    at + 64 * n
}

// The place behind the plain bytes that stand at `at`, 8 of them at most.
#[tactic(auto, using(crate::proofs::Plains::near_ended, crate::proofs::Plains::near_full, crate::proofs::Plains::plains))]
fn plain_near(doc: &[u8], at: usize, quote: u8) -> usize
    requires { (at ≤ length doc.now) × Quote quote }
    ensures { Near (plain_of quote) doc.now at result }
{
    for e in at..doc.len() {
        if e - at == 8 || !is_plain(doc[e], quote) {
            return e;
        }
    }
    doc.len()
}

impl Reading {
    // The place behind the plain bytes that stand here. Most runs are short: the first 8 bytes are read one at a time.
    #[tactic(auto, using(crate::proofs::Plains::near_on, crate::proofs::Plains::near_run, crate::proofs::Plains::plains))]
    pub fn plain(self, doc: &[u8], quote: u8) -> Reading
        requires { (self.at ≤ length doc.now) × Quote quote }
        ensures { RunTo (plain_of quote) doc.now self.at result.at }
    {
        let at = self.at;
        let near = plain_near(doc, at, quote);
        if near - at < 8 {
            return Reading { at: near };
        }
        let far = plain_blocks(doc, near, quote);
        for at in far..doc.len() {
            if !is_plain(doc[at], quote) {
                return Reading { at };
            }
        }
        Reading { at: doc.len() }
    }
}
