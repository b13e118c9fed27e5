//! Why a request file is not read.

use text_base::{Bytes, NoMemory};
use thiserror::Error;

/// Why a request file is not read.
#[derive(Debug, PartialEq, Eq, Drop, Error)]
pub enum RequestRefusal {
    /// The bytes are no JSON in UTF-8 that nests at most 127 deep.
    #[error("the request file is not JSON")]
    NotJson,
    /// The value has not the form of a request.
    #[error("the request file holds no request")]
    NotRequest,
    /// A text or a name holds what is no character of XML: the first one, at this path.
    #[error("the request file holds a text that is not admitted")]
    NotAdmitted { path: Bytes },
    /// No memory was left.
    #[error("out of memory")]
    Memory,
}

impl From<NoMemory> for RequestRefusal {
    ghost use Rattle.std.specs.Prelude.{◌≡◌};
    ghost use Rattle.request_reading.specs.declared.refusal.RequestRefusal.TheVariants.{Memory};

    ghost from_gives = { λ _ refusal. refusal ≡ Memory };

    fn from(_: NoMemory) -> Self {
        RequestRefusal::Memory
    }
}
