//! Of a call that has no options of its file.

ghost use Rattle.std.specs.Prelude.{◌≡◌, IfOk};
ghost use Rattle.phpsa_texts.specs.Statuses.{option_status, options_status};
ghost use Rattle.phpsa_texts.specs.Texts.{IsTold, option_text, options_text};

use crate::exit::Exit;
use crate::lines::{NO_MEMORY, named_text, number_text};
use crate::message::Refusal;
use crate::other_refusals::file_refusal;
use crate::telling::told;
use call_options::{OPTIONS_FILE, OptionsFault, OptionsRefusal};
use std::alloc::Global;
use text_base::{Bytes, NoMemory};

fn option_text(alloc: Global, refusal: &OptionsRefusal) -> Result<Bytes, NoMemory>
    ensures { IfOk result (λ text. text ≡ option_text refusal.now) }
{
    match refusal {
        OptionsRefusal::NotToml { line } => number_text(alloc, b"NotToml", *line),
        OptionsRefusal::Member { name } => named_text(alloc, b"Options", name.as_slice()),
        OptionsRefusal::Memory => Bytes::from_slice(alloc, NO_MEMORY),
    }
}

fn option_status(refusal: &OptionsRefusal) -> Exit
    ensures { result ≡ option_status refusal.now }
{
    match refusal {
        OptionsRefusal::NotToml { .. } | OptionsRefusal::Member { .. } => Exit::Usage,
        OptionsRefusal::Memory => Exit::Memory,
    }
}

fn option_refusal(alloc: Global, refusal: &OptionsRefusal) -> Refusal
    ensures { IsTold result (option_status refusal.now) (option_text refusal.now) }
{
    told(option_status(refusal), option_text(alloc, refusal))
}

/// Why a call has no options of its file.
pub fn options_refusal(alloc: Global, fault: &OptionsFault) -> Refusal
    ensures { IsTold result (options_status fault.now) (options_text fault.now) }
{
    match fault {
        OptionsFault::File(fault) => file_refusal(alloc, *fault, OPTIONS_FILE.as_bytes()),
        OptionsFault::Text(refusal) => option_refusal(alloc, refusal),
    }
}
