//! Of a page that is not read, of a script that has a long text or is not made, and of a file that
//! holds no request, no pattern or no list.

ghost use Rattle.std.specs.Prelude.{◌≡◌, IfOk};
ghost use Rattle.phpsa_texts.specs.Statuses.{file_status, list_status, policy_status, request_status};
ghost use Rattle.phpsa_texts.specs.Texts.{IsTold, file_text, list_text, long_text, policy_text, request_text, size_text};
ghost use Rattle.phpsa_texts.specs.declared.exit.Exit.TheVariants.{Input};

use crate::exit::Exit;
use crate::lines::{NO_MEMORY, counted_text, named_text, number_text};
use crate::message::Refusal;
use crate::telling::told;
use io_edge::FileFault;
use page_policy::PolicyRefusal;
use request_reading::RequestRefusal;
use site_check::ListRefusal;
use std::alloc::Global;
use text_base::{Bytes, NoMemory};

fn file_text(alloc: Global, fault: FileFault, file: &[u8]) -> Result<Bytes, NoMemory>
    ensures { IfOk result (λ text. text ≡ file_text fault file.now) }
{
    match fault {
        FileFault::Missing => named_text(alloc, b"Missing", file),
        FileFault::Failed => named_text(alloc, b"ReadFault", file),
        FileFault::TooLong { len } => counted_text(alloc, b"TooLong", file, len),
        FileFault::Memory => Bytes::from_slice(alloc, NO_MEMORY),
    }
}

fn file_status(fault: FileFault) -> Exit
    ensures { result ≡ file_status fault }
{
    match fault {
        FileFault::Missing => Exit::Missing,
        FileFault::Failed => Exit::ReadFault,
        FileFault::TooLong { .. } => Exit::Input,
        FileFault::Memory => Exit::Memory,
    }
}

/// Why the file of this name is not read.
pub fn file_refusal(alloc: Global, fault: FileFault, file: &[u8]) -> Refusal
    ensures { IsTold result (file_status fault) (file_text fault file.now) }
{
    told(file_status(fault), file_text(alloc, fault, file))
}

/// That a text in the script of the file of this name is over the limit of a run.
pub fn long_text_refusal(alloc: Global, file: &[u8]) -> Refusal
    ensures { IsTold result Input (long_text file.now) }
{
    told(Exit::Input, named_text(alloc, b"LongText", file))
}

fn request_text(alloc: Global, refusal: &RequestRefusal) -> Result<Bytes, NoMemory>
    ensures { IfOk result (λ text. text ≡ request_text refusal.now) }
{
    match refusal {
        RequestRefusal::NotJson => Bytes::from_slice(alloc, b"phpsa: NotJson\n"),
        RequestRefusal::NotRequest => Bytes::from_slice(alloc, b"phpsa: NotRequest\n"),
        RequestRefusal::NotAdmitted { path } => named_text(alloc, b"NotAdmitted", path.as_slice()),
        RequestRefusal::Memory => Bytes::from_slice(alloc, NO_MEMORY),
    }
}

fn request_status(refusal: &RequestRefusal) -> Exit
    ensures { result ≡ request_status refusal.now }
{
    match refusal {
        RequestRefusal::NotJson | RequestRefusal::NotRequest => Exit::Input,
        RequestRefusal::NotAdmitted { .. } => Exit::Input,
        RequestRefusal::Memory => Exit::Memory,
    }
}

/// Why a file holds no request.
pub fn request_refusal(alloc: Global, refusal: &RequestRefusal) -> Refusal
    ensures { IsTold result (request_status refusal.now) (request_text refusal.now) }
{
    told(request_status(refusal), request_text(alloc, refusal))
}

fn policy_text(alloc: Global, refusal: PolicyRefusal) -> Result<Bytes, NoMemory>
    ensures { IfOk result (λ text. text ≡ policy_text refusal) }
{
    match refusal {
        PolicyRefusal::NotPattern { at } => number_text(alloc, b"Policy NotPattern", at as u64),
        PolicyRefusal::TooLong { len } => number_text(alloc, b"Policy TooLong", len as u64),
        PolicyRefusal::TooDeep { at } => number_text(alloc, b"Policy TooDeep", at as u64),
        PolicyRefusal::Memory => Bytes::from_slice(alloc, NO_MEMORY),
    }
}

fn policy_status(refusal: PolicyRefusal) -> Exit
    ensures { result ≡ policy_status refusal }
{
    match refusal {
        PolicyRefusal::NotPattern { .. } | PolicyRefusal::TooLong { .. } => Exit::Policy,
        PolicyRefusal::TooDeep { .. } => Exit::Policy,
        PolicyRefusal::Memory => Exit::Memory,
    }
}

/// Why a file spells no pattern that is taken.
pub fn policy_refusal(alloc: Global, refusal: PolicyRefusal) -> Refusal
    ensures { IsTold result (policy_status refusal) (policy_text refusal) }
{
    told(policy_status(refusal), policy_text(alloc, refusal))
}

/// Why the text of a file is no list of scripts.
pub fn list_refusal(alloc: Global, refusal: ListRefusal) -> Refusal
    ensures { IsTold result (list_status refusal) (list_text refusal) }
{
    match refusal {
        ListRefusal::NotUtf8 { line } => { told(Exit::Input, number_text(alloc, b"NotUtf8", line)) }
        ListRefusal::Names { count } => told(Exit::Input, number_text(alloc, b"Names", count)),
        ListRefusal::Memory => Refusal::Memory,
    }
}

/// That a script cannot have so many functions.
pub fn size_refusal(alloc: Global, functions: u32) -> Refusal
    ensures { IsTold result Input (size_text functions) }
{
    told(
        Exit::Input,
        number_text(alloc, b"Size", u64::from(functions)),
    )
}
