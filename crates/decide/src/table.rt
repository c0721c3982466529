// A table as it was lent, and the words of its rows that the decision looks at.
ghost use Rattle.std.specs.Prelude.{◌≡◌, ◌<◌};
ghost use Rattle.decide.specs.Rows.{kind_at, count_at, Whole};

use language::{Kind, WIDTH};

// The words of a table, how many rows they are, and its text room.
#[derive(Clone, Copy)]
pub struct Table<'a> {
    pub words: &'a [u32],
    pub rows: usize,
    pub room: &'a [u8],
}

impl<'a> Table<'a> {
    // The kind of row r.
    pub fn kind(&self, r: usize) -> Kind
        requires { Whole self.now.words.now r }
        ensures { result.0 ≡ kind_at self.now.words.now r }
    {
        Kind(self.words[WIDTH * r])
    }

    // The count of elements or pairs of a container's row r.
    pub fn count(&self, r: usize) -> usize
        requires { Whole self.now.words.now r }
        ensures { result ≡ count_at self.now.words.now r }
    {
        self.words[WIDTH * r + 4] as usize
    }
}
