// The C interface: each function answers a number of documents 01 and 02, 0 for none, and puts its values where it is told.
// Stays (points 1, 5): the C interface. A number with its values behind pointers, and tables as words, rows and text, are what include/yay.h declares.
#![tactic(auto)]

ghost use Rattle.exports.specs.Exports.{FoundAt, ComparedTo, TextAt};
ghost use Rattle.language.specs.Answered.{Answered, Totals};
ghost use Rattle.language.specs.Written.{Sounded, Written};
ghost use Rattle.upgrade.specs.Decides.{Decides};
ghost use Rattle.overlay.specs.Overlaid.{Overlaid};
ghost use Rattle.stored.specs.Stored.{Stores};
ghost use Rattle.stored.specs.Loaded.{Loads};
ghost use Rattle.std.specs.Prelude.{◌≡◌, ◌+◌, ◌*◌, ◌<◌, length, get_or};
ghost use Rattle.language.specs.Tree.{width};

use integers::NotInt;
use language::{Row, WIDTH};
use overlay::{overlay_first, overlay_number, overlay_second};
use questions::BadRow;
use std::cmp::Ordering;
use stored::{loading_number, loading_second, loading_value, storing_count, storing_number};

// 0 with the counts of rows, text bytes and escapes; or the number of a refusal with its place, or what is needed, 0 and 0.
#[unsafe(no_mangle)]
pub extern "C" fn yay_read(
    doc: &[u8],
    table: &mut [u32],
    text: &mut [u8],
    first: &mut usize,
    second: &mut usize,
    third: &mut usize,
) -> u32
    ensures answered { Answered doc.now table.old text.old result first.new second.new table.new text.new }
    ensures totals { Totals doc.now result third.new }
{
    let answer = reader::read(doc, table, text);
    *first = language::value(answer);
    *second = language::second(answer);
    *third = language::third(answer);
    language::number(answer)
}

// 0 with the row of the key's value; or 9 or 10 with 0.
#[unsafe(no_mangle)]
pub extern "C" fn yay_find(
    table: &[u32],
    rows: usize,
    text: &[u8],
    object: usize,
    key: &[u8],
    value: &mut usize,
) -> u32
    ensures { FoundAt table.now rows text.now object key.now result value.new }
{
    match questions::find(table, rows, text, Row(object), key) {
        Ok(Some(row)) => {
            *value = row.0;
            0
        }
        Ok(None) => {
            *value = 0;
            10
        }
        Err(BadRow) => {
            *value = 0;
            9
        }
    }
}

// 0 with -1, 0 or 1; or 11 with 0.
#[unsafe(no_mangle)]
pub extern "C" fn yay_compare(left: &[u8], right: &[u8], order: &mut i32) -> u32
    ensures { ComparedTo left.now right.now result order.new }
{
    match integers::compare(left, right) {
        Ok(Ordering::Less) => {
            *order = -1;
            0
        }
        Ok(Ordering::Equal) => {
            *order = 0;
            0
        }
        Ok(Ordering::Greater) => {
            *order = 1;
            0
        }
        Err(NotInt) => {
            *order = 0;
            11
        }
    }
}

// A word of a row, as a number.
fn word(table: &[u32], row: usize, j: usize) -> usize
    requires { width * row + j < length table.now }
    ensures { result ≡ get_or table.now (width * row + j) 0 }
{
    table[WIDTH * row + j] as usize
}

// 0 with the start and the end of the row's text in the room; or 9 with 0 and 0.
#[unsafe(no_mangle)]
pub extern "C" fn yay_text(
    table: &[u32],
    rows: usize,
    text: &[u8],
    row: usize,
    from: &mut usize,
    to: &mut usize,
) -> u32
    ensures { TextAt table.now rows text.now row result from.new to.new }
{
    if questions::text_number(table, rows, text, Row(row)) == 0 {
        *from = word(table, row, 3);
        *to = word(table, row, 4);
        return 0;
    }
    *from = 0;
    *to = 0;
    9
}

// 0 where the rows and the text are those of a document; else 9.
#[unsafe(no_mangle)]
pub extern "C" fn yay_sound(table: &[u32], rows: usize, text: &[u8]) -> u32
    ensures { Sounded table.now rows text.now result }
{
    if sound::sound(table, rows, text) {
        0
    } else {
        9
    }
}

// 0 with the bytes written; 8 with the bytes needed; or 9 or 1 with 0.
#[unsafe(no_mangle)]
pub extern "C" fn yay_write(
    table: &[u32],
    rows: usize,
    text: &[u8],
    out: &mut [u8],
    count: &mut usize,
) -> u32
    ensures { Written table.now rows text.now out.old result count.new out.new }
{
    let answer = writer::write(table, rows, text, out);
    *count = language::wrote_count(answer);
    language::wrote_number(answer)
}

// 0 with 1 to install, 2 to keep or 3 where the floor blocks it; or 14 or 15 with 0.
#[unsafe(no_mangle)]
pub extern "C" fn yay_decide(
    sheet: &[u32],
    sheet_rows: usize,
    sheet_text: &[u8],
    installed: &[u32],
    installed_rows: usize,
    installed_text: &[u8],
    decision: &mut u32,
) -> u32
    ensures { Decides sheet.now sheet_rows sheet_text.now installed.now installed_rows installed_text.now result decision.new }
{
    let answer = decide::decide(
        sheet,
        sheet_rows,
        sheet_text,
        installed,
        installed_rows,
        installed_text,
    );
    *decision = upgrade::value(answer);
    upgrade::number(answer)
}

// 0 with the rows and the text bytes of the result; 7 and 8 with what is needed and 0; or 9 or 16 with 0 and 0.
#[unsafe(no_mangle)]
pub extern "C" fn yay_overlay(
    lower: &[u32],
    lower_rows: usize,
    lower_text: &[u8],
    upper: &[u32],
    upper_rows: usize,
    upper_text: &[u8],
    table: &mut [u32],
    text: &mut [u8],
    first: &mut usize,
    second: &mut usize,
) -> u32
    ensures { Overlaid lower.now lower_rows lower_text.now upper.now upper_rows upper_text.now table.old text.old result first.new second.new table.new text.new }
{
    let answer = lay::overlay(
        lower, lower_rows, lower_text, upper, upper_rows, upper_text, table, text,
    );
    *first = overlay_first(answer);
    *second = overlay_second(answer);
    overlay_number(answer)
}

// 0 with the bytes stored; 8 with the bytes needed; or 9 with 0.
#[unsafe(no_mangle)]
pub extern "C" fn yay_store(
    table: &[u32],
    rows: usize,
    text: &[u8],
    out: &mut [u8],
    count: &mut usize,
) -> u32
    ensures { Stores table.now rows text.now out.old result count.new out.new }
{
    let answer = store::store(table, rows, text, out);
    *count = storing_count(answer);
    storing_number(answer)
}

// 0 with the counts of rows and text bytes; 7 or 8 with what is needed and 0; or 13 with 0 and 0.
#[unsafe(no_mangle)]
pub extern "C" fn yay_load(
    stored: &[u8],
    table: &mut [u32],
    text: &mut [u8],
    first: &mut usize,
    second: &mut usize,
) -> u32
    ensures { Loads stored.now table.old text.old result first.new second.new table.new text.new }
{
    let answer = load::load(stored, table, text);
    *first = loading_value(answer);
    *second = loading_second(answer);
    loading_number(answer)
}
