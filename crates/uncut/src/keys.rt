// The keys of an object in stored bytes, one behind another, and whether no two have one text.
ghost use Rattle.std.specs.Prelude.{refl};
ghost use Rattle.uncut.specs.Keys.{placed_keys, Counted, ApartTold};

use super::heads::behind;
use distinct::{Key, Keys};

// The keys' fields in stored bytes, by their places, each with its value behind it.
#[derive(Clone, Copy)]
pub struct Fields;

impl Keys for Fields {
    ghost road = { λ s text stop. placed_keys text stop };

    ghost stops = { λ s text stop. refl };

    fn key(&self, text: &[u8], stop: usize, r: usize) -> Key {
        let to = behind(text, r);
        Key {
            from: r + 3,
            to,
            next: behind(text, to),
        }
    }
}

// Whether no two keys from `from` up to `stop`, n in all, have one text. How many they are picks the way.
// Stays (point 6): n counts keys, and no bytes of `stored`, in `closed` and `members` too.
pub fn apart(stored: &[u8], from: usize, stop: usize, n: usize) -> bool
    requires { Counted stored.now from stop n }
    ensures { ApartTold stored.now from stop result }
{
    distinct::apart(&Fields, stored, from, stop, n)
}
