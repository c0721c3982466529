// What a string has as it stands: plain bytes, and characters of several bytes.
ghost use Rattle.std.specs.Prelude.{◌≤◌, length};
ghost use Rattle.characters.specs.Plains.{Quote, plain_of};
ghost use Rattle.strings.specs.Inside.{CharAt, CleanTo};

use characters::{Read, Reading, is_plain};

// The character that stands here as it is, one of several bytes or a plain one, and the place behind it. It is inlined, since the loop below is slower by a call.
#[tactic(auto, using(crate::proofs::CleanLaws::standing))]
#[inline(always)]
pub fn character(doc: &[u8], n: Reading, quote: u8) -> Read
    requires { Quote quote }
    ensures { CharAt (plain_of quote) doc.now n.at result }
{
    match n.byte(doc) {
        Some((128..=255, _)) => n.scalar(doc),
        Some((b, m)) if is_plain(b, quote) => Ok((b as u32, m)),
        _ => Err(n.at),
    }
}

// The place behind the plain bytes and the characters of several bytes that stand here. Behind the first of those one is read at a time: they are seldom alone.
#[tactic(auto, using(crate::proofs::CleanLaws::cleans))]
pub fn clean_end(doc: &[u8], from: Reading, quote: u8) -> Reading
    requires { (from.at ≤ length doc.now) × Quote quote }
    ensures { CleanTo quote doc.now from.at result.at }
{
    let mut n = from.plain(doc, quote);
    while let Ok((_, m)) = character(doc, n, quote) {
        n = m;
    }
    n
}
