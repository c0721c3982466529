// The keys of rows, by their texts: whether two, of one table or of two, have one, and which of those in a window has it; those of an object, one behind another.
// Stays (point 5): the rooms of keys go as parameters, as `distinct` takes them; the words of a row are in one table, its text in one room, and the two callers in `lay` have them in `Table` already.
// Stays (point 6): n is how many words of the rooms are keys, as `distinct` takes it.
ghost use Rattle.std.specs.Prelude.{◌≡◌, refl};
ghost use Rattle.exact.specs.Tells.{Tells};
ghost use Rattle.distinct.specs.Chains.{InChains, SitsTold};
ghost use Rattle.distinct.specs.Ranks.{InOrder, Finds};
ghost use Rattle.sound.specs.Keys.{text_at, object_keys};
ghost use Rattle.sound.specs.Pairwise.{Named};

use super::word;
use distinct::{Key, Keys, in_chains, in_order, same_text};
use repeats::TooLong;

// Whether the keys of two rows have one text.
pub fn same_key(table: &[u32], text: &[u8], q: usize, other: &[u32], words: &[u8], r: usize) -> bool
    requires { Named table.now text.now q × Named other.now words.now r }
    ensures { Tells (text_at table.now text.now q ≡ text_at other.now words.now r) result }
{
    same_text(
        text,
        word(table, q, 3),
        word(table, q, 4),
        words,
        word(other, r, 3),
        word(other, r, 4),
    )
}

// The one of n keys in chains that has the text of row q of some table.
pub fn key_in_chains(
    text: &[u8],
    froms: &[u32],
    tos: &[u32],
    heads: &[u16],
    links: &[u16],
    n: usize,
    other: &[u32],
    words: &[u8],
    q: usize,
) -> Result<Option<usize>, TooLong>
    requires { InChains text.now froms.now tos.now heads.now links.now n × Named other.now words.now q }
    ensures { SitsTold text.now froms.now tos.now n (text_at other.now words.now q) result }
{
    let a = word(other, q, 3);
    let e = word(other, q, 4);
    in_chains(text, froms, tos, heads, links, n, words, a, e)
}

// Where the text of row q of some table stands among n keys in order.
pub fn key_in_order(
    text: &[u8],
    froms: &[u32],
    tos: &[u32],
    order: &[u16],
    n: usize,
    other: &[u32],
    words: &[u8],
    q: usize,
) -> Result<usize, usize>
    requires { InOrder text.now froms.now tos.now order.now n × Named other.now words.now q }
    ensures { Finds text.now froms.now tos.now order.now n (text_at other.now words.now q) result }
{
    let a = word(other, q, 3);
    let e = word(other, q, 4);
    in_order(text, froms, tos, order, n, words, a, e)
}

// The keys of an object in the rows of a table: each leads to the next by the row behind its value.
#[derive(Clone, Copy)]
pub struct Rows<'a>(pub &'a [u32]);

impl Keys for Rows<'_> {
    ghost road = { λ s text stop. object_keys s.0.now text stop };

    ghost stops = { λ s text stop. refl };

    fn key(&self, text: &[u8], stop: usize, r: usize) -> Key {
        Key {
            from: word(self.0, r, 3),
            to: word(self.0, r, 4),
            next: word(self.0, r + 1, 6),
        }
    }
}
