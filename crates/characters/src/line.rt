// Runs of bytes, pieces of a line, comments and line comments.
ghost use Rattle.std.specs.Prelude.{◌≡◌, true, ◌+◌, ◌≤◌, length, drop};
ghost use Rattle.exact.specs.Class.{only};
ghost use Rattle.exact.specs.Place.{run_end};
ghost use Rattle.characters.specs.Comments.{piece_r, pieces_r, comment_r, line_comment_r, optional_comment_r};
ghost use Rattle.characters.specs.Pieces.{Block, Smooth};
ghost use Rattle.characters.specs.Reads.{Skips};
ghost use Rattle.characters.specs.Runs.{Fed};

use super::{Reading, Skip};

impl Reading {
    // The place behind the bytes b here, as many as there are.
    #[tactic(auto, using(crate::proofs::Lines::running))]
    fn run(self, doc: &[u8], b: u8) -> Reading
        ensures { result.at ≡ run_end (only b) doc.now self.at }
    {
        for at in self.at..doc.len() {
            if doc[at] != b {
                return Reading { at };
            }
        }
        Reading {
            at: self.at.max(doc.len()),
        }
    }

    // The place behind the spaces here.
    #[tactic(auto, using(crate::proofs::Lines::running))]
    pub fn spaces(self, doc: &[u8]) -> Reading
        ensures { result.at ≡ run_end (only 32) doc.now self.at }
    {
        self.run(doc, 32)
    }

    // The place behind the LFs here.
    #[tactic(auto, using(crate::proofs::Lines::running))]
    pub fn line_feeds(self, doc: &[u8]) -> Reading
        ensures { result.at ≡ run_end (only 10) doc.now self.at }
    {
        self.run(doc, 10)
    }

    // The place of the first LF from here on.
    #[tactic(auto, using(crate::proofs::Lines::feeding))]
    pub fn line_end(self, doc: &[u8]) -> Reading
        requires { self.at ≤ length doc.now }
        ensures { Fed doc.now self.at result.at }
    {
        for at in self.at..doc.len() {
            if doc[at] == b'\n' {
                return Reading { at };
            }
        }
        Reading { at: doc.len() }
    }

    // A piece of a line: spaces, and a character that is none.
    #[tactic(auto, using(crate::proofs::Lines::piecing))]
    pub fn piece(self, doc: &[u8]) -> Skip
        ensures { Skips doc.now self.at (piece_r self.at (drop self.at doc.now)) result }
    {
        let dark = self.spaces(doc);
        match dark.byte(doc) {
            Some((33..=126, n)) => Ok(n.at),
            Some((128..=255, _)) => dark.wide(doc),
            _ => Err(dark.at),
        }
    }

    // Whether the 64 bytes from here on are printable, and the last of them is no space. The loop has no exit, so that it becomes vector code.
    #[tactic(auto, using(crate::proofs::Lines::printing))]
    fn printable(self, doc: &[u8]) -> bool
        requires { self.at + 64 ≤ length doc.now }
        ensures { result ≡ true → Block doc.now self.at }
    {
        let at = self.at;
        if doc[at] < 32 || doc[at + 63] == b' ' {
            return false;
        }
        let mut all = true;
        for i in 0..64 {
            let b = doc[at + i];
            all = all & (32 <= b) & (b <= 126);
        }
        all
    }

    // The place behind the blocks of 64 printable bytes that stand here.
    #[tactic(auto, using(crate::proofs::Lines::smoothly))]
    fn blocks(self, doc: &[u8]) -> Reading
        requires { self.at ≤ length doc.now }
        ensures { Smooth doc.now self.at result.at }
    {
        let mut n = self;
        while 64 <= doc.len() - n.at {
            if n.printable(doc) {
                n = Reading { at: n.at + 64 };
            } else {
                return n;
            }
        }
        n
    }

    // Where the last character that is no space ends among the printable ones of ASCII from here on.
    #[tactic(auto, using(crate::proofs::Lines::smoothly))]
    fn smooth(self, doc: &[u8]) -> Reading
        requires { self.at ≤ length doc.now }
        ensures { Smooth doc.now self.at result.at }
    {
        let mut last = self.at;
        for i in self.at..doc.len() {
            let b = doc[i];
            if b < 32 || 126 < b {
                return Reading { at: last };
            }
            if b != b' ' {
                last = i + 1;
            }
        }
        Reading { at: last }
    }

    // The pieces from here on, as many as there are. Blocks are looked for once: behind them there are spaces at a block's end, a wide character or the line's end.
    #[tactic(auto, using(crate::proofs::Lines::lines))]
    pub fn pieces(self, doc: &[u8]) -> Skip
        requires { self.at ≤ length doc.now }
        ensures { Skips doc.now self.at (pieces_r self.at (drop self.at doc.now)) result }
    {
        let far = self.blocks(doc);
        let mut n = far.smooth(doc);
        while n.at < doc.len() {
            match n.piece(doc) {
                Ok(at) => {
                    let m = Reading { at };
                    n = m.smooth(doc);
                }
                Err(p) if p == n.at => return Ok(p),
                Err(p) => return Err(p),
            }
        }
        Ok(n.at)
    }

    // A comment.
    #[tactic(auto, using(crate::proofs::Lines::commenting))]
    pub fn comment(self, doc: &[u8]) -> Skip
        ensures { Skips doc.now self.at (comment_r self.at (drop self.at doc.now)) result }
    {
        let at = self.take(doc, b'#')?;
        Reading { at }.pieces(doc)
    }

    // A line comment.
    #[tactic(auto, using(crate::proofs::Lines::commenting))]
    pub fn line_comment(self, doc: &[u8]) -> Skip
        ensures { Skips doc.now self.at (line_comment_r self.at (drop self.at doc.now)) result }
    {
        let second = self.take(doc, b' ')?;
        let at = Reading { at: second }.take(doc, b' ')?;
        Reading { at }.comment(doc)
    }

    // A line comment, or nothing: a space here decides.
    #[tactic(auto, using(crate::proofs::Lines::commenting))]
    pub fn optional_comment(self, doc: &[u8]) -> Skip
        requires { self.at ≤ length doc.now }
        ensures { Skips doc.now self.at (optional_comment_r self.at (drop self.at doc.now)) result }
    {
        match self.take(doc, b' ') {
            Ok(_) => self.line_comment(doc),
            Err(p) => Ok(p),
        }
    }
}

// A comment at a place.
#[tactic(auto, using(crate::proofs::Lines::commenting))]
pub fn comment(doc: &[u8], at: usize) -> Skip
    ensures { Skips doc.now at (comment_r at (drop at doc.now)) result }
{
    Reading { at }.comment(doc)
}

// A line comment at a place, or nothing.
#[tactic(auto, using(crate::proofs::Lines::commenting))]
pub fn optional_comment(doc: &[u8], at: usize) -> Skip
    requires { at ≤ length doc.now }
    ensures { Skips doc.now at (optional_comment_r at (drop at doc.now)) result }
{
    Reading { at }.optional_comment(doc)
}
