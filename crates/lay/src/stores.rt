// Stores into the targets. One past a target's end changes nothing, so that the same walk counts, with targets of next to nothing, and fills.
ghost use Rattle.std.specs.Prelude.{◌≡◌, ◌+◌, ◌-◌, ◌*◌, ◌≤◌, ◌<◌, length};
ghost use Rattle.std.proofs.lemmas.List.Edits.{sets};
ghost use Rattle.std.proofs.Math.Seq.{slice};
ghost use Rattle.language.specs.Tree.{width, unlined, row_list};
ghost use Rattle.lay.specs.Targets.{ceiling};

use language::WIDTH;
use rooms::Words;

// The bytes from a to e, stored from x on, as many as have room.
pub fn copy(text: &[u8], a: usize, e: usize, room: &mut [u8], x: usize)
    requires { (a ≤ e) × (e ≤ length text.now) × (x + (e - a) < ceiling) }
    ensures { room.new ≡ sets room.old x (slice a e text.now) }
{
    if x < room.len() {
        let n = (e - a).min(room.len() - x);
        for i in 0..n {
            room[x + i] = text[a + i];
        }
    }
}

// The words of a row.
#[tactic(auto, using(rooms::specs::Stores::sets_past))]
pub fn put_row(rows: &mut [u32], row: usize, w: Words)
    requires { row < ceiling }
    ensures { rows.new ≡ sets rows.old (width * row) (row_list unlined w.kind w.first w.after w.from w.to w.parent w.next) }
{
    let i = WIDTH * row;
    if i < rows.len() {
        rooms::put_row(&mut rows[i..], 0, w);
    }
}
