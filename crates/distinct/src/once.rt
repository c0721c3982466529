// Whether no two keys of an object have one text: few keys are each sought among those behind them, many in windows.
// Stays (point 6): n says how many keys there are and picks the way, and is no count of a room.
// Stays (point 5): keys, text and stop go as parameters: `Keys` takes the room with each call, so that the fields of stored bytes need no struct that holds it; stop is another for each object.
ghost use Rattle.std.specs.Prelude.{◌≡◌};
ghost use Rattle.std.proofs.Math.Seq.{slice};
ghost use Rattle.distinct.specs.Names.{Part};
ghost use Rattle.distinct.specs.Roads.{AmongTold, ApartTold};
ghost use Rattle.distinct.specs.Windows.{Open};

use super::windows::windows;
use super::{Keys, same_text};

// So few keys are asked pair by pair, since clearing rooms takes longer.
const PAIRS: usize = 16;

// Whether a key from `from` up to `stop` has the text from b to f.
fn among<K: Keys>(keys: &K, text: &[u8], b: usize, f: usize, from: usize, stop: usize) -> bool
    requires { Part text.now b f × Open (K.road keys.now text.now stop) from }
    ensures { AmongTold (K.road keys.now text.now stop) (slice b f text.now) from result }
{
    let mut r = from;
    while r < stop {
        let k = keys.key(text, stop, r);
        if same_text(text, b, f, text, k.from, k.to) {
            return true;
        }
        r = k.next;
    }
    false
}

// Whether no two keys from `from` up to `stop` have one text, pair by pair.
fn pairwise<K: Keys>(keys: &K, text: &[u8], from: usize, stop: usize) -> bool
    requires { Open (K.road keys.now text.now stop) from }
    ensures { ApartTold (K.road keys.now text.now stop) from result }
{
    let mut r = from;
    while r < stop {
        let k = keys.key(text, stop, r);
        if among(keys, text, k.from, k.to, k.next, stop) {
            return false;
        }
        r = k.next;
    }
    true
}

// Whether no two keys from `from` up to `stop` have one text; n says how many they are, and picks the way.
pub fn apart<K: Keys>(keys: &K, text: &[u8], from: usize, stop: usize, n: usize) -> bool
    requires { Open (K.road keys.now text.now stop) from }
    ensures { ApartTold (K.road keys.now text.now stop) from result }
{
    if n <= PAIRS {
        pairwise(keys, text, from, stop)
    } else {
        windows(keys, text, from, stop, n)
    }
}
