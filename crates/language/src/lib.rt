// The words that document 01 gives numbers to: kinds, rows, places, refusals and answers.
#![tactic(auto)]

ghost use Rattle.std.specs.Prelude.{◌≡◌, ◌/◌};
ghost use Rattle.language.specs.Kind.{has_text};
ghost use Rattle.language.specs.Answered as answered;
ghost use Rattle.language.specs.Written as written;
ghost use Rattle.language.specs.Tree.{width};
ghost use Rattle.language.specs.Lent.{words_in, bytes_in};

// "A row is nine words" (02, Ticket 8).
pub const WIDTH: usize = 9;

// LONG: more than 1,048,576 bytes (02, Ticket 11).
pub const LIMIT: usize = 1048576;

// "at most 32 containers one inside another".
pub const DEEPEST: usize = 32;

// "at most 16,777,216 rows and text bytes; from here on a lent room counts for no more than that" (02, Ticket 1).
pub const LENT: usize = 16777216;

// The rows that a lent table counts for.
pub fn rows_lent(table: &[u32]) -> usize
    ensures { result ≡ words_in table.now / width }
{
    (table.len() / WIDTH).min(LENT)
}

// The bytes that a lent text room or output counts for.
pub fn bytes_lent(room: &[u8]) -> usize
    ensures { result ≡ bytes_in room.now }
{
    room.len().min(LENT)
}

// A place is counted in bytes from 0.
#[derive(Clone, Copy, Debug, PartialEq, Eq)]
pub struct Place(pub usize);

// A row is counted from 0, and is never taken for a place.
#[derive(Clone, Copy, Debug, PartialEq, Eq)]
pub struct Row(pub usize);

// The kind of a row, by its number.
// Stays (point 1): a lent table may hold any word, and `has_text` of the contracts answers for each, so this is no enum of the ten.
#[derive(Clone, Copy, Debug, PartialEq, Eq)]
pub struct Kind(pub u32);

impl Kind {
    pub const NULL: Kind = Kind(1);

    pub const FALSE: Kind = Kind(2);

    pub const TRUE: Kind = Kind(3);

    pub const INTEGER: Kind = Kind(4);

    pub const FLOAT: Kind = Kind(5);

    pub const STRING: Kind = Kind(6);

    pub const BYTES: Kind = Kind(7);

    pub const ARRAY: Kind = Kind(8);

    pub const OBJECT: Kind = Kind(9);

    pub const KEY: Kind = Kind(10);

    // Whether rows of this kind have a text.
    pub fn has_text(self) -> bool
        ensures { result ≡ has_text self.0 }
    {
        matches!(
            self,
            Kind::INTEGER | Kind::FLOAT | Kind::STRING | Kind::BYTES | Kind::KEY
        )
    }
}

// What an accepted document has: its rows, the bytes of its texts, and its escapes.
#[derive(Clone, Copy, Debug, PartialEq, Eq)]
pub struct Accepted {
    pub rows: Row,
    pub text: usize,
    pub escapes: usize,
}

// Why `read` refuses a document, with the place, the rows needed or the count of text bytes needed.
#[derive(Clone, Copy, Debug, PartialEq, Eq)]
pub enum Refusal {
    Long,
    Char(Place),
    Syntax(Place),
    Deep(Place),
    End(Place),
    Repeat(Place),
    Rows(Row),
    Text(usize),
}

// Why `write` refuses a table: it is not sound; the bytes are too many; or how many bytes the output would need.
#[derive(Clone, Copy, Debug, PartialEq, Eq)]
pub enum WriteRefusal {
    BadRow,
    TooLong,
    TooShort(usize),
}

// The number of an answer of `read` and its three values, as documents 01 and 02 count them.
pub fn number(answer: Result<Accepted, Refusal>) -> u32
    ensures { result ≡ answered.number answer }
{
    match answer {
        Ok(_) => 0,
        Err(Refusal::Long) => 1,
        Err(Refusal::Char(_)) => 2,
        Err(Refusal::Syntax(_)) => 3,
        Err(Refusal::Deep(_)) => 4,
        Err(Refusal::End(_)) => 5,
        Err(Refusal::Repeat(_)) => 6,
        Err(Refusal::Rows(_)) => 7,
        Err(Refusal::Text(_)) => 8,
    }
}

pub fn value(answer: Result<Accepted, Refusal>) -> usize
    ensures { result ≡ answered.value answer }
{
    match answer {
        Ok(accepted) => accepted.rows.0,
        Err(Refusal::Long) => 0,
        Err(Refusal::Char(p)) => p.0,
        Err(Refusal::Syntax(p)) => p.0,
        Err(Refusal::Deep(p)) => p.0,
        Err(Refusal::End(p)) => p.0,
        Err(Refusal::Repeat(p)) => p.0,
        Err(Refusal::Rows(rows)) => rows.0,
        Err(Refusal::Text(bytes)) => bytes,
    }
}

// Stays (point 2), as `third` does: a function for each definition that the contracts name, here `answered.second`.
pub fn second(answer: Result<Accepted, Refusal>) -> usize
    ensures { result ≡ answered.second answer }
{
    match answer {
        Ok(accepted) => accepted.text,
        Err(_) => 0,
    }
}

pub fn third(answer: Result<Accepted, Refusal>) -> usize
    ensures { result ≡ answered.third answer }
{
    match answer {
        Ok(accepted) => accepted.escapes,
        Err(_) => 0,
    }
}

// The number of an answer of `write` and its count, as document 02 counts them.
pub fn wrote_number(answer: Result<usize, WriteRefusal>) -> u32
    ensures { result ≡ written.wrote_number answer }
{
    match answer {
        Ok(_) => 0,
        Err(WriteRefusal::BadRow) => 9,
        Err(WriteRefusal::TooLong) => 1,
        Err(WriteRefusal::TooShort(_)) => 8,
    }
}

pub fn wrote_count(answer: Result<usize, WriteRefusal>) -> usize
    ensures { result ≡ written.wrote_count answer }
{
    match answer {
        Ok(bytes) | Err(WriteRefusal::TooShort(bytes)) => bytes,
        Err(WriteRefusal::BadRow) | Err(WriteRefusal::TooLong) => 0,
    }
}
