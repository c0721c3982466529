// The bytes of a bare key: a run of them is passed at once.
ghost use Rattle.std.specs.Prelude.{◌≡◌, ◌≤◌, length};
ghost use Rattle.exact.specs.Class.{is};
ghost use Rattle.language.specs.Strings.{keybyte};
ghost use Rattle.characters.specs.Plains.{RunTo};

use super::Reading;

// A byte of a bare key: a letter, a digit, `-` or `_`. Lowercase letters are the most, and come first.
#[tactic(auto, using(crate::proofs::KeyBytes::keybytes))]
pub fn is_key(b: u32) -> bool
    ensures { result ≡ is keybyte b }
{
    if 97 <= b {
        return b <= 122;
    }
    if b < 48 {
        return b == 45;
    }
    if b <= 57 {
        return true;
    }
    if b < 65 {
        return false;
    }
    if b <= 90 {
        return true;
    }
    b == 95
}

impl Reading {
    // The place behind the bytes of a bare key that stand here.
    #[tactic(auto, using(crate::proofs::KeyBytes::keyruns))]
    pub fn key_bytes(self, doc: &[u8]) -> Reading
        requires { self.at ≤ length doc.now }
        ensures { RunTo keybyte doc.now self.at result.at }
    {
        for at in self.at..doc.len() {
            if !is_key(doc[at] as u32) {
                return Reading { at };
            }
        }
        Reading { at: doc.len() }
    }
}
