// Repeated keys of a long document: they are sieved until few are left that may come twice, and those are looked through.
ghost use Rattle.std.specs.Prelude.{◌≡◌, ◌+◌, ◌<◌, length};
ghost use Rattle.sieve.specs.Sieve.{filter, large};
ghost use Rattle.reader.specs.Rounds.{Copied, Wiped, Turned, Sieving, Swept, Listing, Repeated};
ghost use Rattle.reader.specs.Windows.{keys_of, Doubled};

use super::windows::{HALF, listed};
use judge::check;
use language::DEEPEST;
use notes::log_word;
use sieve::{AGAIN, BROKEN, FILTER, HITS, MODE, ROUND};

// A run of bits has so many words.
const RUN: usize = 4096;

// What was found again becomes the filter.
fn copied(keys: &mut [u32])
    requires { length keys.old ≡ large }
    ensures { Copied keys.old 4096 keys.new }
{
    keys.copy_within(AGAIN..AGAIN + RUN, FILTER);
}

// The sieve is emptied.
fn wiped(keys: &mut [u32])
    requires { length keys.old ≡ large }
    ensures { Wiped keys.old filter keys.new }
{
    keys[HITS..FILTER].fill(0);
}

// The next round: keys that pass the new filter are sieved, or, with the mode 0, noted. There are no lists: an object's first key may not pass, and others come before the next that does.
#[tactic(auto, using(crate::specs::Rounds::turning))]
fn turn(keys: &mut [u32], round: u32, mode: u32)
    requires { length keys.old ≡ large }
    ensures { Turned keys.old round mode keys.new }
{
    copied(keys);
    wiped(keys);
    keys[ROUND] = round;
    keys[MODE] = mode;
    keys[BROKEN] = 2;
}

// The document's keys are sieved once more.
#[tactic(auto, using(crate::specs::Rounds::sieving_short, crate::specs::Rounds::sieving_swept))]
fn sieved(doc: &[u8], keys: &mut [u32], round: u32)
    requires { Sieving doc.now keys.old round }
    ensures { Swept doc.now keys.new (round + 1) }
{
    let mut rows = [0u32; 1];
    let mut text = [0u8; 1];
    let _ = check(doc, &mut rows, &mut text, keys, DEEPEST);
}

// The first repeated key, once few are left that may come twice.
#[tactic(auto, using(crate::specs::Rounds::settling))]
fn settled(doc: &[u8], keys: &mut [u32], round: u32) -> Option<usize>
    requires { Swept doc.now keys.old round × (0 < round) }
    ensures { Doubled (keys_of doc.now) result }
{
    turn(keys, round, 0);
    listed(doc, keys)
}

// The first repeated key, by rounds.
#[tactic(auto, using(crate::specs::Rounds::sifting))]
fn sifted(doc: &[u8], keys: &mut [u32]) -> Option<usize>
    requires { Swept doc.now keys.old 1 }
    ensures { Doubled (keys_of doc.now) result }
{
    let mut round: u32 = 1;
    loop {
        let hits = log_word(keys, HITS);
        if hits < 1 {
            return None;
        }
        if hits <= HALF {
            return settled(doc, keys, round);
        }
        if 8 < round {
            return settled(doc, keys, round);
        }
        turn(keys, round, 1);
        sieved(doc, keys, round);
        round += 1;
    }
}

// The first key that a document repeats whose keys were sieved once.
#[tactic(auto, using(crate::specs::Rounds::doubled_repeated))]
pub fn first_repeat(doc: &[u8], keys: &mut [u32]) -> Option<usize>
    requires { Swept doc.now keys.old 1 }
    ensures { Repeated doc.now result }
{
    sifted(doc, keys)
}
