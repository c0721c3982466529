// The texts of keys by their places in the document, read again a byte at a time; and their hashes.
// Stays (point 5), here and in each file: the document, the room for a piece and the text go together, and `Pieced` and `Keyed` are asked of them. A struct that holds the `&mut` slices would need a clause in every contract that it still holds the same ones.
#![tactic(auto)]

ghost use Rattle.std.specs.Prelude.{◌≡◌, ◌+◌, ◌*◌, ◌/◌, ◌%◌, ◌<◌};
ghost use Rattle.spelt.specs.Reading.{Keyed, Bare};
ghost use Rattle.spelt.specs.Hash.{HashOf};

mod spelling;

use characters::{Reading, is_key};
use spelling::byte_at;
pub use spelling::{Given, Spelling, begin, further, next, standing};

// So many bytes of a text are in its hash: long keys are few, and those that share so many are told apart in another way.
const BYTES: usize = 4096;

// A byte more in a hash. The upper half of the word is added to the lower: sums of products alone are equal for some texts whatever the factor.
#[tactic(auto, using(crate::specs::Hash::product_half, crate::specs::Hash::product_low, crate::specs::Hash::product_more))]
fn turned(h: usize, factor: usize, b: u8) -> usize
    requires { (h < 4294967296) × (factor < 4294967296) }
    ensures { result ≡ (factor * h + h / 65536 + b) % 4294967296 }
{
    (factor * h + h / 65536 + b as usize) % 4294967296
}

// The hash of the bare key at a place, in an object.
#[tactic(auto, using(crate::specs::Hash::baring))]
fn bare_hash(doc: &[u8], from: usize, object: usize, factor: usize) -> usize
    requires { Keyed doc.now from × (object < 4294967296) × (factor < 4294967296) × Bare doc.now from }
    ensures { HashOf doc.now from object factor result }
{
    let mut r = Reading { at: from };
    let mut h = object;
    for passed in 0..BYTES {
        match r.byte(doc) {
            Some((b, n)) if is_key(b as u32) => {
                h = turned(h, factor, b);
                r = n;
            }
            _ => return h,
        }
    }
    h
}

// The hash of the quoted key at a place, in an object.
#[tactic(auto, using(crate::specs::Hash::hashing))]
fn quoted_hash(doc: &[u8], at: usize, object: usize, factor: usize) -> usize
    requires { Keyed doc.now at × (object < 4294967296) × (factor < 4294967296) }
    ensures { HashOf doc.now at object factor result }
{
    let mut room = [0u8; 8];
    let mut s = begin(doc, at);
    let mut h = object;
    for passed in 0..BYTES {
        let v = standing(doc, s);
        if v < 256 {
            h = turned(h, factor, v as u8);
            s = further(s);
        } else {
            match next(doc, &mut room, s) {
                None => return h,
                Some((b, n)) => {
                    h = turned(h, factor, b);
                    s = n;
                }
            }
        }
    }
    h
}

// The hash of the key at a place, in an object.
pub fn hash(doc: &[u8], at: usize, object: usize, factor: usize) -> usize
    requires { Keyed doc.now at × (object < 4294967296) × (factor < 4294967296) }
    ensures { HashOf doc.now at object factor result }
{
    match byte_at(doc, at) {
        34 => quoted_hash(doc, at, object, factor),
        39 => quoted_hash(doc, at, object, factor),
        _ => bare_hash(doc, at, object, factor),
    }
}
