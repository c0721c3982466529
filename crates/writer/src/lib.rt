// The writer: a sound table and its text as a profile in the house style.
#![tactic(auto)]

mod codes;
mod flat;
mod leaves;
mod lines;
mod marks;
mod runs;

ghost use Rattle.language.specs.Written.{wrote_number, wrote_count, Written};
ghost use Rattle.writer.specs.Wrote.{Roomy};

use language::{LIMIT, WriteRefusal, bytes_lent};
use sound::sound;

// A table and its text.
#[derive(Clone, Copy)]
struct Profile<'a> {
    table: &'a [u32],
    text: &'a [u8],
}

// A character: its scalar value, and the place behind its bytes.
#[derive(Clone, Copy)]
pub struct Code {
    pub value: u32,
    pub next: usize,
}

// Where a walk over a text, and what it writes, have come to.
#[derive(Clone, Copy)]
pub struct Step {
    pub at: usize,
    pub x: usize,
}

// Tables of at most so many rows and text bytes: whatever is written of one is within the limit, since a row takes at most a hundred bytes and a byte of text ten.
const ROWS: usize = 5000;

const BYTES: usize = 50000;

// Whether the output has room for whatever is written of such a table, so that its bytes need not be counted first.
fn roomy(rows: usize, text: &[u8], out: &[u8]) -> bool
    ensures { Roomy rows text.now out.now result }
{
    rows <= ROWS && text.len() <= BYTES && 100 * rows + 10 * text.len() <= bytes_lent(out)
}

// Writes a profile into the output lent; a refusal leaves it as it came.
#[tactic(auto, using(crate::specs::Wrote::writing))]
pub fn write(table: &[u32], rows: usize, text: &[u8], out: &mut [u8]) -> Result<usize, WriteRefusal>
    ensures { Written table.now rows text.now out.old (wrote_number result) (wrote_count result) out.new }
{
    if !sound(table, rows, text) {
        return Err(WriteRefusal::BadRow);
    }
    let profile = Profile { table, text };
    if roomy(rows, text, out) {
        return Ok(profile.house(out));
    }
    let n = profile.count();
    if LIMIT < n {
        return Err(WriteRefusal::TooLong);
    }
    if bytes_lent(out) < n {
        return Err(WriteRefusal::TooShort(n));
    }
    profile.house(out);
    Ok(n)
}
