//! Of a document type definition that there is not, or that is over a limit.

ghost use Rattle.std.specs.Prelude.{◌≡◌, IfOk};
ghost use Rattle.phpsa_texts.specs.Statuses.{built_in_status, definition_status, dtd_status};
ghost use Rattle.phpsa_texts.specs.Texts.{IsTold, built_in_text, definition_text, dtd_refusal_text, states_text};
ghost use Rattle.phpsa_texts.specs.declared.exit.Exit.TheVariants.{Dtd};

use crate::exit::Exit;
use crate::lines::{NO_MEMORY, counted_text, named_text, number_text};
use crate::message::Refusal;
use crate::telling::told;
use document_types::DefinitionRefusal;
use dtd_reader::DtdRefusal;
use std::alloc::Global;
use text_base::{Bytes, NoMemory};

/// The text of a refusal of the built-in definition.
const BUILT_IN_REFUSED: &[u8] = b"phpsa: Dtd strict\n";

fn dtd_refusal_text(alloc: Global, refusal: &DtdRefusal) -> Result<Bytes, NoMemory>
    ensures { IfOk result (λ text. text ≡ dtd_refusal_text refusal.now) }
{
    match refusal {
        DtdRefusal::Missing { name } => named_text(alloc, b"Missing", name.as_slice()),
        DtdRefusal::ReadFault { name } => named_text(alloc, b"ReadFault", name.as_slice()),
        DtdRefusal::TooLong { name, len } => {
            counted_text(alloc, b"TooLong", name.as_slice(), *len)
        }
        DtdRefusal::Outside { name } => named_text(alloc, b"Dtd Outside", name.as_slice()),
        DtdRefusal::NotDtd { at } => number_text(alloc, b"Dtd NotDtd", *at),
        DtdRefusal::Entity { name } => named_text(alloc, b"Dtd Entity", name.as_slice()),
        DtdRefusal::Twice { name } => named_text(alloc, b"Dtd Twice", name.as_slice()),
        DtdRefusal::Undeclared { name } => named_text(alloc, b"Dtd Undeclared", name.as_slice()),
        DtdRefusal::LeftOut { at } => number_text(alloc, b"Dtd LeftOut", *at),
        DtdRefusal::Limit { count } => number_text(alloc, b"Dtd Limit", *count),
        DtdRefusal::Memory => Bytes::from_slice(alloc, NO_MEMORY),
    }
}

fn built_in_text(alloc: Global, refusal: &DtdRefusal) -> Result<Bytes, NoMemory>
    ensures { IfOk result (λ text. text ≡ built_in_text refusal.now) }
{
    let text = match refusal {
        DtdRefusal::Memory => NO_MEMORY,
        DtdRefusal::Missing { .. } | DtdRefusal::ReadFault { .. } => BUILT_IN_REFUSED,
        DtdRefusal::TooLong { .. } | DtdRefusal::Limit { .. } => BUILT_IN_REFUSED,
        DtdRefusal::NotDtd { .. } | DtdRefusal::LeftOut { .. } => BUILT_IN_REFUSED,
        DtdRefusal::Entity { .. } | DtdRefusal::Twice { .. } => BUILT_IN_REFUSED,
        DtdRefusal::Undeclared { .. } | DtdRefusal::Outside { .. } => BUILT_IN_REFUSED,
    };
    Bytes::from_slice(alloc, text)
}

fn definition_text(alloc: Global, refusal: &DefinitionRefusal) -> Result<Bytes, NoMemory>
    ensures { IfOk result (λ text. text ≡ definition_text refusal.now) }
{
    match refusal {
        DefinitionRefusal::File(refusal) => dtd_refusal_text(alloc, refusal),
        DefinitionRefusal::BuiltIn(refusal) => built_in_text(alloc, refusal),
        DefinitionRefusal::Memory => Bytes::from_slice(alloc, NO_MEMORY),
    }
}

fn dtd_status(refusal: &DtdRefusal) -> Exit
    ensures { result ≡ dtd_status refusal.now }
{
    match refusal {
        DtdRefusal::Missing { .. } => Exit::Missing,
        DtdRefusal::ReadFault { .. } => Exit::ReadFault,
        DtdRefusal::TooLong { .. } => Exit::Input,
        DtdRefusal::Memory => Exit::Memory,
        DtdRefusal::NotDtd { .. } | DtdRefusal::LeftOut { .. } => Exit::Dtd,
        DtdRefusal::Entity { .. } | DtdRefusal::Twice { .. } => Exit::Dtd,
        DtdRefusal::Undeclared { .. } | DtdRefusal::Limit { .. } => Exit::Dtd,
        DtdRefusal::Outside { .. } => Exit::Dtd,
    }
}

fn built_in_status(refusal: &DtdRefusal) -> Exit
    ensures { result ≡ built_in_status refusal.now }
{
    match refusal {
        DtdRefusal::Memory => Exit::Memory,
        DtdRefusal::Missing { .. } | DtdRefusal::ReadFault { .. } => Exit::Dtd,
        DtdRefusal::TooLong { .. } | DtdRefusal::Limit { .. } => Exit::Dtd,
        DtdRefusal::NotDtd { .. } | DtdRefusal::LeftOut { .. } => Exit::Dtd,
        DtdRefusal::Entity { .. } | DtdRefusal::Twice { .. } => Exit::Dtd,
        DtdRefusal::Undeclared { .. } | DtdRefusal::Outside { .. } => Exit::Dtd,
    }
}

fn definition_status(refusal: &DefinitionRefusal) -> Exit
    ensures { result ≡ definition_status refusal.now }
{
    match refusal {
        DefinitionRefusal::File(refusal) => dtd_status(refusal),
        DefinitionRefusal::BuiltIn(refusal) => built_in_status(refusal),
        DefinitionRefusal::Memory => Exit::Memory,
    }
}

/// Why a document type has no definition.
pub fn definition_refusal(alloc: Global, refusal: &DefinitionRefusal) -> Refusal
    ensures { IsTold result (definition_status refusal.now) (definition_text refusal.now) }
{
    told(definition_status(refusal), definition_text(alloc, refusal))
}

/// That the content models of a definition pass a limit, by `count`.
pub fn states_refusal(alloc: Global, count: u64) -> Refusal
    ensures { IsTold result Dtd (states_text count) }
{
    told(Exit::Dtd, number_text(alloc, b"Dtd Limit", count))
}
