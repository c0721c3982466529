// What `decide` answers (document 02, Ticket 6); its definitions and what follows from them stand in specs/.
#![tactic(auto)]

ghost use Rattle.std.specs.Prelude.{◌≡◌};
ghost use Rattle.upgrade.specs.Decides as D;

// Install the sheet's version, keep the installed one, or the floor stands between them.
#[derive(Clone, Copy, Debug, PartialEq, Eq)]
pub enum Decision {
    Install,
    Keep,
    Blocked,
}

// A table is no sheet's, or no installed version's.
#[derive(Clone, Copy, Debug, PartialEq, Eq)]
pub enum Undecided {
    BadSheet,
    BadInstalled,
}

// The number of an answer and its decision, as document 02 counts them.
pub fn number(answer: Result<Decision, Undecided>) -> u32
    ensures { result ≡ D.number answer }
{
    match answer {
        Ok(_) => 0,
        Err(Undecided::BadSheet) => 14,
        Err(Undecided::BadInstalled) => 15,
    }
}

pub fn value(answer: Result<Decision, Undecided>) -> u32
    ensures { result ≡ D.value answer }
{
    match answer {
        Ok(Decision::Install) => 1,
        Ok(Decision::Keep) => 2,
        Ok(Decision::Blocked) => 3,
        Err(_) => 0,
    }
}
