// The definition of laying one profile over another, and what is proved of it, stand in specs/; here is the answer alone.
#![tactic(auto)]

ghost use Rattle.std.specs.Prelude.{◌≡◌};
ghost use Rattle.overlay.specs.Overlaid.{gave_number, gave_first, gave_second};

// The rows and the text bytes of the result.
#[derive(Clone, Copy, PartialEq, Eq, Debug)]
pub struct Filled {
    pub rows: usize,
    pub bytes: usize,
}

// What an overlay refuses: a table that is not sound or whose root is no object; two that clash; or targets that are too small, with how many rows or text bytes they would need.
#[derive(Clone, Copy, PartialEq, Eq, Debug)]
pub enum OverlayRefusal {
    BadRow,
    Clash,
    TooFew(usize),
    TooShort(usize),
}

// What an overlay answers.
pub type Gave = Result<Filled, OverlayRefusal>;

// The number of an answer and its two values, as document 02 counts them.
pub fn overlay_number(answer: Gave) -> u32
    ensures { result ≡ gave_number answer }
{
    match answer {
        Ok(_) => 0,
        Err(OverlayRefusal::BadRow) => 9,
        Err(OverlayRefusal::Clash) => 16,
        Err(OverlayRefusal::TooFew(_)) => 7,
        Err(OverlayRefusal::TooShort(_)) => 8,
    }
}

pub fn overlay_first(answer: Gave) -> usize
    ensures { result ≡ gave_first answer }
{
    match answer {
        Ok(filled) => filled.rows,
        Err(OverlayRefusal::BadRow) | Err(OverlayRefusal::Clash) => 0,
        Err(OverlayRefusal::TooFew(rows)) => rows,
        Err(OverlayRefusal::TooShort(bytes)) => bytes,
    }
}

// Stays (point 2): a function for each definition that contracts name, here gave_second; stored::loading_second is of other answers.
pub fn overlay_second(answer: Gave) -> usize
    ensures { result ≡ gave_second answer }
{
    match answer {
        Ok(filled) => filled.bytes,
        Err(_) => 0,
    }
}
