// Versions: whether a row is one's, and which of two is above.
// Stays (point 5): `Inside` is of a row and this very table: a type of rows with it as its fact would hold the table too.
ghost use Rattle.std.specs.Prelude.{◌≡◌, ◌+◌, ◌*◌, ◌≤◌, ◌<◌};
ghost use Rattle.exact.specs.Tells.{Tells};
ghost use Rattle.language.specs.Tree.{width};
ghost use Rattle.language.specs.Lent.{words_in};
ghost use Rattle.integers.specs.Order.{compared, compared_verdict};
ghost use Rattle.upgrade.specs.Version.{most};
ghost use Rattle.decide.specs.Rows.{Inside, NaturalRow, NaturalRows, VersionRow, place_text};
ghost use Rattle.decide.specs.Contract.{AboveRow, Versions};

use super::table::Table;
use integers::{NotInt, compare};
use language::{Kind, Row};
use questions::text;
use std::cmp::Ordering;

// A version has so many places at most.
const MOST: usize = 8;

impl<'a> Table<'a> {
    // Whether row r is that of an integer not below zero.
    fn is_natural(&self, r: usize) -> bool
        requires { width * self.now.rows ≤ words_in self.now.words.now }
        ensures { Tells (NaturalRow self.now.words.now self.now.rows self.now.room.now r) result }
    {
        if self.rows <= r || self.kind(r) != Kind::INTEGER {
            return false;
        }
        match compare(text(self.words, self.rows, self.room, Row(r)), b"0") {
            Ok(order) => order.is_ge(),
            Err(NotInt) => false,
        }
    }

    // Whether row r is that of an array of 1 to 8 integers not below zero.
    pub fn is_version(&self, r: usize) -> bool
        requires { Inside self.now.words.now self.now.rows r }
        ensures { Tells (VersionRow self.now.words.now self.now.rows self.now.room.now r) result }
    {
        if self.kind(r) != Kind::ARRAY {
            return false;
        }
        let n = self.count(r);
        if n == 0 || MOST < n {
            return false;
        }
        (r + 1..r + 1 + n).all(|i| self.is_natural(i))
    }

    // The text of the i-th place of the version in row r; a missing place counts as zero.
    fn place(&self, r: usize, i: usize) -> &'a [u8]
        requires { Inside self.now.words.now self.now.rows r × (i < most) }
        ensures { result.now ≡ place_text self.now.words.now self.now.rows self.now.room.now r i }
    {
        if i < self.count(r) {
            text(self.words, self.rows, self.room, Row(r + 1 + i))
        } else {
            b"0"
        }
    }

    // How the i-th places of the version in row r and of the other's, in row s, stand to each other. Most versions have few places, and where both are missing they are equal.
    fn order(&self, r: usize, other: &Table, s: usize, i: usize) -> Result<Ordering, NotInt>
        requires { Inside self.now.words.now self.now.rows r × Inside other.now.words.now other.now.rows s × (i < most) }
        ensures { compared_verdict result ≡ compared (place_text self.now.words.now self.now.rows self.now.room.now r i) (place_text other.now.words.now other.now.rows other.now.room.now s i) }
    {
        if self.count(r).max(other.count(s)) <= i {
            return Ok(Ordering::Equal);
        }
        compare(self.place(r, i), other.place(s, i))
    }

    // Whether the version in row r is above the other's, in row s.
    pub fn above(&self, r: usize, other: &Table, s: usize) -> bool
        requires { Versions self.now.words.now self.now.rows self.now.room.now r other.now.words.now other.now.rows other.now.room.now s }
        ensures { Tells (AboveRow self.now.words.now self.now.rows self.now.room.now r other.now.words.now other.now.rows other.now.room.now s) result }
    {
        for i in 0..MOST {
            match self.order(r, other, s, i) {
                Ok(order) => {
                    if order.is_ne() {
                        return order.is_gt();
                    }
                }
                Err(NotInt) => return false,
            }
        }
        false
    }
}
