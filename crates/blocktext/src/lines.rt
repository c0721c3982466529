// The text of a line.
ghost use Rattle.std.specs.Prelude.{◌≤◌, length};
ghost use Rattle.blocktext.specs.Contract.{TextAt};

use characters::{Reading, Skip};

// The text that stands here up to its line's end: the place of the LF.
#[tactic(auto, using(crate::proofs::LineLaws::texting))]
pub fn text_line(doc: &[u8], here: Reading) -> Skip
    requires { here.at ≤ length doc.now }
    ensures { TextAt doc.now here.at result }
{
    let e = here.pieces(doc)?;
    if e == here.at {
        return Err(e);
    }
    Reading { at: e }.take(doc, b'\n')?;
    Ok(e)
}
