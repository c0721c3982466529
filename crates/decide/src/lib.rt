// The upgrade decision (document 02, Ticket 6), above the reader: it asks the public functions of tables and integers, and reads nothing else but kinds and counts of rows.
#![tactic(auto)]

ghost use Rattle.exact.specs.Tells.{Tells};
ghost use Rattle.upgrade.specs.Decides as D;
ghost use Rattle.decide.specs.Contract.{InstalledRow, SheetRows};

mod sheets;
mod table;
mod versions;

use sheets::Sheet;
use table::Table;
use upgrade::{Decision, Undecided};

// Whether the table is a sound one of an installed version.
fn is_installed(table: &Table) -> bool
    ensures { Tells (InstalledRow table.now.words.now table.now.rows table.now.room.now) result }
{
    sound::sound(table.words, table.rows, table.room) && table.is_version(0)
}

// The decision, where the sheet's version and floor stand in these rows, and the other table is that of the installed version.
fn decided(table: &Table, sheet: Sheet, installed: &Table) -> Decision
    requires { SheetRows table.now.words.now table.now.rows table.now.room.now sheet.version sheet.floor × InstalledRow installed.now.words.now installed.now.rows installed.now.room.now }
    ensures { D.Decides table.now.words.now table.now.rows table.now.room.now installed.now.words.now installed.now.rows installed.now.room.now 0 (D.value (Ok result)) }
{
    if table.above(sheet.version, installed, 0) {
        if table.above(sheet.floor, installed, 0) {
            Decision::Blocked
        } else {
            Decision::Install
        }
    } else {
        Decision::Keep
    }
}

// Whether to install what the sheet names over what is installed.
pub fn decide(
    table: &[u32],
    rows: usize,
    text: &[u8],
    installed: &[u32],
    installed_rows: usize,
    installed_text: &[u8],
) -> Result<Decision, Undecided>
    ensures { D.Decides table.now rows text.now installed.now installed_rows installed_text.now (D.number result) (D.value result) }
{
    let installed = Table {
        words: installed,
        rows: installed_rows,
        room: installed_text,
    };
    if !is_installed(&installed) {
        return Err(Undecided::BadInstalled);
    }
    let table = Table {
        words: table,
        rows,
        room: text,
    };
    match table.sheet() {
        Some(sheet) => Ok(decided(&table, sheet, &installed)),
        None => Err(Undecided::BadSheet),
    }
}
