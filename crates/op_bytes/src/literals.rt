//! What operations put into their outputs whatever they read.

ghost use Rattle.std.specs.Prelude.{◌↔◌, ℕ, Contains};
ghost use Rattle.least_sets.specs.Bytes.{Adds};

use op_system::Op;

/// The text that an operation may put into an output on any input; none for most.
#[tactic(auto, unfolding(least_sets::specs::Bytes::Adds))]
pub fn literal_of(op: &Op) -> &[u8]
    ensures { (byte : ℕ) → Adds op.now byte ↔ Contains result.now byte }
{
    match op {
        Op::Replace { search, with } => {
            let _ = search;
            with.as_slice()
        }
        Op::Same
        | Op::Any
        | Op::Html
        | Op::Cut { .. }
        | Op::Factor
        | Op::Lower
        | Op::Upper
        | Op::First
        | Op::Trim { .. }
        | Op::Breaks
        | Op::Url
        | Op::RawUrl
        | Op::Slashes
        | Op::Piece { .. } => &[],
    }
}
