// A text, whole in a slice or cut into runs that stand apart.
ghost use Rattle.std.specs.Prelude.{◌<◌, List, ℕ, length};
ghost use Rattle.integers.specs.Text.{Counted, Peeked, Run};

pub trait Text: Copy {
    ghost bytes: { Self → List ℕ };

    // How many bytes it has.
    fn count(&self) -> usize
        ensures { Counted (bytes self.now) result };

    // The byte at a place, 0 behind the end: 0 stands within no character and in no number.
    // Stays (points 1, 4): `Peeked` has it so, and with an Option each test of a byte in texts would be longer.
    fn byte(&self, at: usize) -> u8
        ensures { Peeked (bytes self.now) at result };

    // The bytes from a place on that stand one behind another, at least one.
    fn run(&self, at: usize) -> &[u8]
        requires { at < length (bytes self.now) }
        ensures { Run (bytes self.now) at result.now };
}

// A slice's.
fn counted(s: &[u8]) -> usize
    ensures { Counted s.now result }
{
    s.len()
}

impl Text for &[u8] {
    ghost bytes = { λ s. s.now };

    fn count(&self) -> usize {
        counted(self)
    }

    fn byte(&self, at: usize) -> u8 {
        if at < self.len() { self[at] } else { 0 }
    }

    fn run(&self, at: usize) -> &[u8] {
        &self[at..]
    }
}
