// Runs of digits.
ghost use Rattle.std.specs.Prelude.{◌≤◌, length};
ghost use Rattle.language.specs.Scalars.{digit};
ghost use Rattle.characters.specs.Plains.{RunTo};

use super::Reading;

impl Reading {
    // The place behind the digits that stand here.
    #[tactic(auto, using(crate::proofs::DigitPassing::passing))]
    pub fn digits(self, doc: &[u8]) -> Reading
        requires { self.at ≤ length doc.now }
        ensures { RunTo digit doc.now self.at result.at }
    {
        for at in self.at..doc.len() {
            if doc[at] < b'0' || b'9' < doc[at] {
                return Reading { at };
            }
        }
        Reading { at: doc.len() }
    }
}
