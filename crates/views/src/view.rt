// A content as a text: its bytes stand in runs.
ghost use Rattle.std.specs.Prelude.{◌≡◌, ◌<◌, ℕ, get_or, take};
ghost use Rattle.views.specs.Views.{viewed, Content};

use super::{LEVELS, byte_at, run};
use integers::Text;

// The first n bytes of a view d fields deep.
#[derive(Clone, Copy)]
pub struct View<'a> {
    pub stored: &'a [u8],
    pub starts: &'a [u32; LEVELS],
    pub d: usize,
    pub n: usize,
    pub ghost content: { Content stored.now starts.now d n },
}

// A content has no byte that is not one of those stored.
// Stays (point 6): n counts the bytes of a content, which lies in `stored` in parts.
fn counted(stored: &[u8], n: usize) -> usize
    ensures { (result ≡ n) × ((i : ℕ) → get_or stored.now i 0 < 256) }
{
    n
}

impl<'a> Text for View<'a> {
    ghost bytes = { λ v. take v.n (viewed v.stored.now v.starts.now v.d) };

    fn count(&self) -> usize {
        counted(self.stored, self.n)
    }

    fn byte(&self, at: usize) -> u8 {
        if at < self.n {
            return byte_at(self.stored, self.starts, self.d, at) as u8;
        }
        0
    }

    fn run(&self, at: usize) -> &[u8] {
        let r = run(self.starts, self.d, at, self.n - at);
        &self.stored[r.place..r.place + r.left]
    }
}
