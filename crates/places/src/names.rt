// What keys are told apart by: their marks, their objects, and their texts where both agree.
ghost use Rattle.std.specs.Prelude.{◌≡◌, ◌+◌, ◌*◌, ◌<◌, length};
ghost use Rattle.exact.specs.Tells.{Tells};
ghost use Rattle.repeats.specs.Mark.{marked};
ghost use Rattle.repeats.specs.Numbering.{Same};
ghost use Rattle.repeats.specs.Order.{Ordered};
ghost use Rattle.places.specs.Places.{object_at, place_at, spelled, place_keys};
ghost use Rattle.spelt.specs.Standing.{Spells, Common};
ghost use Rattle.places.specs.Names.{Bare, Keyed, MarksOf, Compared, Stand};

use characters::{Reading, is_key};
use notes::{FIRST, log_word};
use repeats::stirred;
use rooms::Cursor;
use spelt::{Spelling, begin, further, next, standing};
use std::cmp::Ordering;

// What a text leads to: its mark, and a number that picks its chain.
#[derive(Clone, Copy)]
pub struct Marks {
    pub mark: u32,
    pub stir: usize,
}

// The row of the object of the i-th key noted.
#[tactic(auto, using(crate::specs::Places::object_is))]
pub fn object_of(keys: &[u32], i: usize) -> usize
    requires { 4 + 2 * i + 1 < length keys.now }
    ensures { (result ≡ object_at keys.now i) × (result < 4294967296) }
{
    log_word(keys, FIRST + 2 * i)
}

// The place where it begins.
#[tactic(auto, using(crate::specs::Places::place_is))]
pub fn place_of(keys: &[u32], i: usize) -> usize
    requires { 4 + 2 * i + 1 < length keys.now }
    ensures { result ≡ place_at keys.now i }
{
    log_word(keys, FIRST + 2 * i + 1)
}

// A byte more in a mark: twice the mark so far plus that byte, wrapping.
fn marked(h: u32, b: u8) -> u32
    ensures { result ≡ marked h b }
{
    std::num::wrapping_add_u32(std::num::wrapping_add_u32(h, h), b as u32)
}

// The marks of the bare key at a place, in an object.
#[tactic(auto, using(crate::specs::Names::baring))]
fn bare_marks(doc: &[u8], from: usize, object: usize) -> Marks
    requires { Keyed doc.now from × (object < 4294967296) × Bare doc.now from }
    ensures { MarksOf doc.now from object result }
{
    let mut r = Reading { at: from };
    let mut mark: u32 = 0;
    let mut stir = object;
    loop {
        match r.byte(doc) {
            None => return Marks { mark, stir },
            Some((b, n)) => {
                if is_key(b as u32) {
                    mark = marked(mark, b);
                    stir = stirred(stir, b);
                    r = n;
                } else {
                    return Marks { mark, stir };
                }
            }
        }
    }
}

// The marks of the quoted key at a place, in an object.
#[tactic(auto, using(crate::specs::Names::marking))]
fn quoted_marks(doc: &[u8], at: usize, object: usize) -> Marks
    requires { Keyed doc.now at × (object < 4294967296) }
    ensures { MarksOf doc.now at object result }
{
    let mut room = [0u8; 8];
    let mut s = begin(doc, at);
    let mut mark: u32 = 0;
    let mut stir = object;
    loop {
        let v = standing(doc, s);
        if v < 256 {
            mark = marked(mark, v as u8);
            stir = stirred(stir, v as u8);
            s = further(s);
        } else {
            match next(doc, &mut room, s) {
                None => return Marks { mark, stir },
                Some((b, n)) => {
                    mark = marked(mark, b);
                    stir = stirred(stir, b);
                    s = n;
                }
            }
        }
    }
}

// The marks of the key at a place, in an object. Most keys are bare, and marked as they stand.
pub fn marks_of(doc: &[u8], at: usize, object: usize) -> Marks
    requires { Keyed doc.now at × (object < 4294967296) }
    ensures { MarksOf doc.now at object result }
{
    let c = Cursor {
        at,
        row: 0,
        text: 0,
    };
    let b = c.look(doc);
    if b == 34 || b == 39 {
        quoted_marks(doc, at, object)
    } else {
        bare_marks(doc, at, object)
    }
}

// Where the reading of two texts is.
#[derive(Clone, Copy)]
pub struct Both {
    pub one: Spelling,
    pub two: Spelling,
}

// The bytes that two texts have in common passed, as far as they stand in the document as they are.
#[tactic(auto, using(spelt::specs::Standing::passing))]
fn common(doc: &[u8], a: Spelling, b: Spelling) -> Both
    requires { Spells doc.now a × Spells doc.now b }
    ensures { Common doc.now a b result.one result.two }
{
    let mut s = a;
    let mut t = b;
    loop {
        let v = standing(doc, s);
        if 255 < v {
            return Both { one: s, two: t };
        }
        let w = standing(doc, t);
        if v != w {
            return Both { one: s, two: t };
        }
        s = further(s);
        t = further(t);
    }
}

// How the texts of the keys at two places stand to each other.
#[tactic(auto, using(crate::specs::Names::agreeing))]
pub fn texts(doc: &[u8], a: usize, b: usize) -> Ordering
    requires { Keyed doc.now a × Keyed doc.now b }
    ensures { Ordered (spelled doc.now a) (spelled doc.now b) result }
{
    let mut room = [0u8; 8];
    let mut other = [0u8; 8];
    let mut p = common(doc, begin(doc, a), begin(doc, b));
    loop {
        let x = next(doc, &mut room, p.one);
        let y = next(doc, &mut other, p.two);
        match x {
            None => match y {
                None => return Ordering::Equal,
                Some(_) => return Ordering::Less,
            },
            Some((c, n)) => match y {
                None => return Ordering::Greater,
                Some((d, m)) => {
                    if c != d {
                        return c.cmp(&d);
                    }
                    p = common(doc, n, m);
                }
            },
        }
    }
}

// How two keys stand to each other: by their marks, then by their objects, then by their texts.
#[tactic(auto, using(crate::specs::Names::comparing))]
pub fn ordered(doc: &[u8], keys: &[u32], marks: &[u32], i: usize, k: usize) -> Ordering
    requires { Compared doc.now keys.now marks.now i k }
    ensures { Stand doc.now keys.now i k result }
{
    let by_marks = marks[i].cmp(&marks[k]);
    if by_marks.is_ne() {
        return by_marks;
    }
    let by_objects = object_of(keys, i).cmp(&object_of(keys, k));
    if by_objects.is_ne() {
        return by_objects;
    }
    texts(doc, place_of(keys, i), place_of(keys, k))
}

// Whether two keys have one object and one text.
#[tactic(auto, using(crate::specs::Names::standing))]
pub fn same_key(doc: &[u8], keys: &[u32], marks: &[u32], i: usize, k: usize) -> bool
    requires { Compared doc.now keys.now marks.now i k }
    ensures { Tells (Same (place_keys doc.now keys.now) i k) result }
{
    ordered(doc, keys, marks, i, k).is_eq()
}
