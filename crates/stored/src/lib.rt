// What `store` and `load` answer (document 02, Tickets 4 and 11); its definitions and what follows from them stand in specs/.
#![tactic(auto)]

ghost use Rattle.std.specs.Prelude.{◌≡◌};
ghost use Rattle.stored.specs.Stored as S;
ghost use Rattle.stored.specs.Loaded as L;

use language::Row;

// What one field holds at most; a longer content is stored in parts of so many bytes.
pub const WIDEST: usize = 65535;

// What `store` refuses: a table that is not sound; or an output that is too short, with how many bytes it would need.
#[derive(Clone, Copy, PartialEq, Eq, Debug)]
pub enum StoreRefusal {
    BadRow,
    TooShort(usize),
}

// The count of bytes stored, or a refusal.
pub type Storing = Result<usize, StoreRefusal>;

// The rows and the count of text bytes that were loaded.
#[derive(Clone, Copy, PartialEq, Eq, Debug)]
pub struct Loaded {
    pub rows: Row,
    pub bytes: usize,
}

// What `load` refuses: bytes that are no stored form; or rooms that are too small, with the rows or the count of text bytes that they would need.
#[derive(Clone, Copy, PartialEq, Eq, Debug)]
pub enum LoadRefusal {
    BadForm,
    Rows(Row),
    Text(usize),
}

// What was loaded, or a refusal.
pub type Loading = Result<Loaded, LoadRefusal>;

// The number of an answer and its values, as document 02 counts them.
pub fn storing_number(answer: Storing) -> u32
    ensures { result ≡ S.storing_number answer }
{
    match answer {
        Ok(_) => 0,
        Err(StoreRefusal::BadRow) => 9,
        Err(StoreRefusal::TooShort(_)) => 8,
    }
}

pub fn storing_count(answer: Storing) -> usize
    ensures { result ≡ S.storing_count answer }
{
    match answer {
        Ok(bytes) | Err(StoreRefusal::TooShort(bytes)) => bytes,
        Err(StoreRefusal::BadRow) => 0,
    }
}

pub fn loading_number(answer: Loading) -> u32
    ensures { result ≡ L.loading_number answer }
{
    match answer {
        Ok(_) => 0,
        Err(LoadRefusal::BadForm) => 13,
        Err(LoadRefusal::Rows(_)) => 7,
        Err(LoadRefusal::Text(_)) => 8,
    }
}

pub fn loading_value(answer: Loading) -> usize
    ensures { result ≡ L.loading_value answer }
{
    match answer {
        Ok(loaded) => loaded.rows.0,
        Err(LoadRefusal::BadForm) => 0,
        Err(LoadRefusal::Rows(rows)) => rows.0,
        Err(LoadRefusal::Text(bytes)) => bytes,
    }
}

// Stays (point 2): a function for each definition that contracts name, here loading_second; overlay::overlay_second is of other answers.
pub fn loading_second(answer: Loading) -> usize
    ensures { result ≡ L.loading_second answer }
{
    match answer {
        Ok(loaded) => loaded.bytes,
        Err(_) => 0,
    }
}
