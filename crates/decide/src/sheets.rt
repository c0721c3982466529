// Release sheets: which rows their version and floor stand in.
// Stays (point 5): `Object` is asked by three methods of one walk, below `sheet`: a type with it as its fact would be a second `Table`, made there alone.
ghost use Rattle.std.specs.Prelude.{◌≡◌, ◌*◌, ◌≤◌};
ghost use Rattle.exact.specs.Tells.{Tells};
ghost use Rattle.decide.specs.Rows.{Inside, ImageRow};
ghost use Rattle.decide.specs.Contract.{Object, Sought, VersionUnder, ImageUnder, SheetTold};

use super::table::Table;
use language::{Kind, Row};
use questions::{find, text};
use sound::sound;

// A sheet, by the rows of its version and its floor.
#[derive(Clone, Copy)]
pub struct Sheet {
    pub version: usize,
    pub floor: usize,
}

impl<'a> Table<'a> {
    // The row of a property's value, where the root has it.
    fn value(&self, key: &[u8]) -> Option<usize>
        ensures { Sought self.now.words.now self.now.rows self.now.room.now key.now result }
    {
        match find(self.words, self.rows, self.room, Row(0), key) {
            Ok(Some(row)) => Some(row.0),
            _ => None,
        }
    }

    // Whether row r is that of bytes of length 32.
    fn is_image(&self, r: usize) -> bool
        requires { Inside self.now.words.now self.now.rows r }
        ensures { Tells (ImageRow self.now.words.now self.now.rows self.now.room.now r) result }
    {
        self.kind(r) == Kind::BYTES && text(self.words, self.rows, self.room, Row(r)).len() == 32
    }

    // The row of the version under a key of the root, where there is one.
    fn version_under(&self, key: &[u8]) -> Option<usize>
        requires { Object self.now.words.now self.now.rows self.now.room.now }
        ensures { VersionUnder self.now.words.now self.now.rows self.now.room.now key.now result }
    {
        let r = self.value(key)?;
        if self.is_version(r) { Some(r) } else { None }
    }

    // Whether bytes of length 32 are under the key `image` of the root.
    fn has_image(&self) -> bool
        requires { Object self.now.words.now self.now.rows self.now.room.now }
        ensures { ImageUnder self.now.words.now self.now.rows self.now.room.now result }
    {
        match self.value(b"image") {
            Some(r) => self.is_image(r),
            None => false,
        }
    }

    // The sheet, where the root is an object of three pairs.
    fn properties(&self) -> Option<Sheet>
        requires { Object self.now.words.now self.now.rows self.now.room.now }
        ensures { SheetTold self.now.words.now self.now.rows self.now.room.now result }
    {
        let version = self.version_under(b"version")?;
        let floor = self.version_under(b"floor")?;
        if self.has_image() {
            Some(Sheet { version, floor })
        } else {
            None
        }
    }

    // Whether the table is a sound one of an object of three pairs.
    fn is_object(&self) -> bool
        ensures { Tells (Object self.now.words.now self.now.rows self.now.room.now) result }
    {
        sound(self.words, self.rows, self.room)
            && self.kind(0) == Kind::OBJECT
            && self.count(0) == 3
    }

    // The sheet that the table is one's.
    pub fn sheet(&self) -> Option<Sheet>
        ensures { SheetTold self.now.words.now self.now.rows self.now.room.now result }
    {
        if self.is_object() {
            self.properties()
        } else {
            None
        }
    }
}
