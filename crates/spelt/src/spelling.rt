// The text of a key, read from the document again a byte at a time: bytes as they stand, and those of an escape or a character of several bytes from a room for one piece.
ghost use Rattle.std.specs.Prelude.{◌≡◌, false, ◌+◌, ◌≤◌, ◌<◌};
ghost use Rattle.exact.specs.Class.{is};
ghost use Rattle.exact.specs.Place.{peek};
ghost use Rattle.language.specs.Strings.{lettered};
ghost use Rattle.language.specs.Answered.{limit};
ghost use Rattle.spelt.specs.Spelling.{Spellable, Nexts, Begins, Pieced};
ghost use Rattle.spelt.specs.Standing.{further, Spells, Standing};

use characters::{Reading, is_key, is_plain};
use rooms::{Cursor, copy};
use strings::{scalar_escape, stands_for};

// Where the reading of a text is: the place of what comes next, the quote that it stands in, 0 for a bare key, and the bytes of the room that come before it.
// Stays (point 1): the quote is a byte, since the definitions of specs/Spelling.antt compare it with the document's, and no byte of a key is 0.
#[derive(Clone, Copy)]
pub struct Spelling {
    pub at: usize,
    pub quote: u8,
    pub from: usize,
    pub to: usize,
}

// What it gives: the next byte and the text behind it; none if the text is over.
pub type Given = Option<(u8, Spelling)>;

// The byte at a place, 256 at the end.
// Stays (point 1): it is `peek`, as Cursor::look, and the contracts speak by that; each test below would be longer with Some.
pub fn byte_at(doc: &[u8], at: usize) -> u32
    ensures { result ≡ peek doc.now at }
{
    Cursor {
        at,
        row: 0,
        text: 0,
    }
    .look(doc)
}

// The text from a place on, with nothing in the room.
fn text_at(at: usize, quote: u8) -> Spelling
    ensures { result ≡ record { at = at; quote = quote; from = 0; to = 0 } }
{
    Spelling {
        at,
        quote,
        from: 0,
        to: 0,
    }
}

// The text of the key at a place, from its first byte on.
#[tactic(auto, using(crate::specs::Spelling::beginning))]
pub fn begin(doc: &[u8], at: usize) -> Spelling
    requires { at ≤ limit }
    ensures { Begins doc.now at result }
{
    match byte_at(doc, at) {
        34 => text_at(at + 1, 34),
        39 => text_at(at + 1, 39),
        _ => text_at(at, 0),
    }
}

// `u{..}` behind a backslash, put into the room; its first byte.
#[tactic(auto, using(crate::specs::Spelling::coding))]
fn coded(doc: &[u8], room: &mut [u8], s: Spelling) -> Given
    requires { Pieced doc.now room.old s × (peek doc.now s.at ≡ 92) × (s.quote ≡ 34) × (is lettered (peek doc.now (s.at + 1)) ≡ false) }
    ensures { Nexts doc.now room.old s room.new result }
{
    let c = Cursor {
        at: s.at + 1,
        row: 0,
        text: 0,
    };
    let Ok(n) = scalar_escape(doc, room, c) else {
        return None;
    };
    let rest = Spelling {
        at: n.at,
        quote: s.quote,
        from: 1,
        to: n.spot(),
    };
    Some((room[0], rest))
}

// An escape in double quotes: the byte that its letter stands for, or the first of `u{..}`.
#[tactic(auto, using(crate::specs::Spelling::escaping))]
fn escaped(doc: &[u8], room: &mut [u8], s: Spelling) -> Given
    requires { Pieced doc.now room.old s × (peek doc.now s.at ≡ 92) × (s.quote ≡ 34) }
    ensures { Nexts doc.now room.old s room.new result }
{
    match stands_for(byte_at(doc, s.at + 1)) {
        Some(v) => Some((v, text_at(s.at + 2, s.quote))),
        None => coded(doc, room, s),
    }
}

// A backslash in single quotes: it stands for the quote or the backslash behind it, or for itself.
#[tactic(auto, using(crate::specs::Spelling::singling))]
fn single(doc: &[u8], room: &mut [u8], s: Spelling) -> Given
    requires { Pieced doc.now room.old s × (peek doc.now s.at ≡ 92) × (s.quote ≡ 39) }
    ensures { Nexts doc.now room.old s room.new result }
{
    match byte_at(doc, s.at + 1) {
        39 => Some((39, text_at(s.at + 2, s.quote))),
        92 => Some((92, text_at(s.at + 2, s.quote))),
        _ => Some((92, text_at(s.at + 1, s.quote))),
    }
}

// A character of several bytes, put into the room; its first byte.
#[tactic(auto, using(crate::specs::Spelling::widening))]
fn wide(doc: &[u8], room: &mut [u8], s: Spelling) -> Given
    requires { Pieced doc.now room.old s × (peek doc.now s.at ≡ 92 → ⊥) }
    ensures { Nexts doc.now room.old s room.new result }
{
    let at = s.at;
    let Ok((_, n)) = (Reading { at }).scalar(doc) else {
        return None;
    };
    let e = n.at;
    copy(doc, at, e, room, 0);
    let rest = Spelling {
        at: e,
        quote: s.quote,
        from: 1,
        to: e - at,
    };
    Some((room[0], rest))
}

// An escape or a character of several bytes: its first byte.
#[tactic(auto, using(crate::specs::Spelling::piece_single))]
fn piece(doc: &[u8], room: &mut [u8], s: Spelling, b: u8) -> Given
    requires { Pieced doc.now room.old s × (b ≡ peek doc.now s.at) }
    ensures { Nexts doc.now room.old s room.new result }
{
    if b != b'\\' {
        wide(doc, room, s)
    } else if s.quote == b'"' {
        escaped(doc, room, s)
    } else {
        single(doc, room, s)
    }
}

// What comes next in the document: a byte that stands as it is, a piece, or the end of the key.
#[tactic(auto, using(crate::specs::Spelling::freshly))]
fn fresh(doc: &[u8], room: &mut [u8], s: Spelling) -> Given
    requires { Spellable doc.now room.old s × (s.to ≤ s.from) }
    ensures { Nexts doc.now room.old s room.new result }
{
    let (b, m) = (Reading { at: s.at }).byte(doc)?;
    let n = text_at(m.at, s.quote);
    if s.quote == 0 {
        return if is_key(b as u32) { Some((b, n)) } else { None };
    }
    if is_plain(b, s.quote) {
        return Some((b, n));
    }
    if b == s.quote {
        return None;
    }
    piece(doc, room, s, b)
}

// The next byte of the text, if it stands in the document as it is; or 256. Most do, and are passed without a room.
// Stays (point 1): a number, as that of Cursor::look: places compares those of two texts, 256 too, in one test, and Standing in specs/Standing.antt says what it is.
#[tactic(auto, using(crate::specs::Standing::standing))]
pub fn standing(doc: &[u8], s: Spelling) -> usize
    requires { Spells doc.now s }
    ensures { Standing doc.now s result }
{
    if s.from < s.to {
        return 256;
    }
    match (Reading { at: s.at }).byte(doc) {
        None => 256,
        Some((b, _)) => {
            if s.quote == 0 {
                if is_key(b as u32) { b as usize } else { 256 }
            } else if is_plain(b, s.quote) {
                b as usize
            } else {
                256
            }
        }
    }
}

// The text behind such a byte.
pub fn further(s: Spelling) -> Spelling
    requires { s.at < limit }
    ensures { result ≡ further s }
{
    text_at(s.at + 1, s.quote)
}

// The next byte of the text.
#[tactic(auto, using(crate::specs::Spelling::held_next, crate::specs::Spelling::held_room))]
pub fn next(doc: &[u8], room: &mut [u8], s: Spelling) -> Given
    requires { Spellable doc.now room.old s }
    ensures { Nexts doc.now room.old s room.new result }
{
    let i = s.from;
    if i < s.to {
        return Some((room[i], Spelling { from: i + 1, ..s }));
    }
    fresh(doc, room, s)
}
