//! How deep the brackets of a file are, whether it is a pattern or not.

ghost use Rattle.std.specs.Prelude.{◌≡◌, ◌+◌, ◌∷◌, ◌≤◌, ℕ, suc, List, if◌then◌else◌, Some};
ghost use Rattle.page_policy.specs.Refusals.{too_deep, deep_at};

use crate::refusal::OPEN_LIMIT;

/// Where a scan is: behind a backslash, inside of a set of bytes, and within how many brackets.
#[derive(Drop)]
struct Scan {
    escaped: bool,
    inside: bool,
    depth: usize,
    ghost bounded: { depth ≤ 100 },
}

impl Scan {
    /// Goes over a byte, and tells whether it is a bracket too many.
    #[tactic(auto, unfolding(crate::specs::Refusals::too_deep))]
    fn step(&mut self, byte: u8) -> bool
        ensures { (at : ℕ) (rest : List ℕ) →
            too_deep self.old.escaped self.old.inside self.old.depth at (byte ∷ rest)
            ≡ (if result then Some at
            else too_deep self.new.escaped self.new.inside self.new.depth (suc at) rest) }
    {
        if self.escaped {
            self.escaped = false;
            return false;
        }
        if self.inside {
            self.escaped = byte == 92;
            self.inside = byte != 93;
            return false;
        }
        if byte == 40 {
            if self.depth < OPEN_LIMIT {
                self.depth += 1;
                return false;
            }
            return true;
        }
        if byte == 41 {
            self.depth = self.depth.saturating_sub(1);
            return false;
        }
        self.escaped = byte == 92;
        self.inside = byte == 91;
        false
    }
}

/// The place of the first bracket of a file that is one too many, if there is one.
pub(crate) fn deep_place(file: &[u8]) -> Option<usize>
    ensures { result ≡ deep_at file.now }
{
    let mut scan = Scan {
        escaped: false,
        inside: false,
        depth: 0,
    };
    let mut rest = file;
    let mut at = 0;
    while let Some((byte, others)) = rest.split_first() {
        if scan.step(*byte) {
            return Some(at);
        }
        at += 1;
        rest = others;
    }
    None
}
