//! What is written at the end of a call, with its status.

ghost use Rattle.std.specs.Prelude.{◌≡◌};
ghost use Rattle.phpsa_texts.specs.declared.message.Refusal.TheVariants.{Memory};

use crate::exit::Exit;
use text_base::{Bytes, NoMemory};

/// A text that is written, and the status that the call ends with.
#[derive(Debug, PartialEq, Eq, Drop)]
pub struct Message {
    pub status: Exit,
    pub text: Bytes,
}

/// Why nothing is written on the output.
#[derive(Debug, PartialEq, Eq, Drop)]
pub enum Refusal {
    /// What is written on the error stream in its place.
    Told(Message),
    /// No memory was left.
    Memory,
}

impl From<NoMemory> for Refusal {
    ghost from_gives = { λ _ refusal. refusal ≡ Memory };

    fn from(_: NoMemory) -> Self {
        Refusal::Memory
    }
}
