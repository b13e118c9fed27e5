//! Refusals that are told.

ghost use Rattle.std.specs.Prelude.{◌≡◌, ℕ, List, IfOk};
ghost use Rattle.phpsa_texts.specs.Texts.{IsTold};

use crate::exit::Exit;
use crate::message::{Message, Refusal};
use text_base::{Bytes, NoMemory};

/// The text with the status, or that no memory was left.
pub(crate) fn told(status: Exit, text: Result<Bytes, NoMemory>) -> Refusal
    ensures { (t : List ℕ) → IfOk text (λ made. made ≡ t) → IsTold result status t }
{
    match text {
        Ok(text) => Refusal::Told(Message { status, text }),
        Err(NoMemory) => Refusal::Memory,
    }
}
