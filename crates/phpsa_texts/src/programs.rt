//! Of a program that is not loaded.

ghost use Rattle.std.specs.Prelude.{◌≡◌, IfOk};
ghost use Rattle.phpsa_texts.specs.Statuses.{load_status};
ghost use Rattle.phpsa_texts.specs.Texts.{IsTold, counted_text, fault_name, load_text, said_of};

use crate::exit::Exit;
use crate::lines::{NO_MEMORY, counted_text, named_text, number_text};
use crate::message::Refusal;
use crate::telling::told;
use lexical_grammar::fault::LexicalFault;
use php_lexer::LexRefusal;
use php_parser::ParseRefusal;
use program_files::{LoadRefusal, ScriptRefusal};
use std::alloc::Global;
use text_base::{Bytes, NoMemory};

fn fault_name(fault: LexicalFault) -> &'static [u8]
    ensures { result.now ≡ fault_name fault }
{
    match fault {
        LexicalFault::BadByte => b"BadByte",
        LexicalFault::Unclosed => b"Unclosed",
        LexicalFault::Float => b"Float",
        LexicalFault::BigInt => b"BigInt",
        LexicalFault::Escape => b"Escape",
    }
}

fn lexed(refusal: LexRefusal) -> (&'static [u8], u64)
    ensures name { result.0.now ≡ (said_of (ScriptRefusal.Lex refusal)).0 }
    ensures number { result.1 ≡ (said_of (ScriptRefusal.Lex refusal)).1 }
{
    match refusal {
        LexRefusal::Breaks { fault, at } => (fault_name(fault), u64::from(at)),
        LexRefusal::TooLong { len } => (b"TooLong", len),
        LexRefusal::Memory => (b"Memory", 0),
    }
}

fn parsed(refusal: ParseRefusal) -> (&'static [u8], u64)
    ensures name { result.0.now ≡ (said_of (ScriptRefusal.Parse refusal)).0 }
    ensures number { result.1 ≡ (said_of (ScriptRefusal.Parse refusal)).1 }
{
    match refusal {
        ParseRefusal::NotInSubset { at } => (b"NotInSubset", u64::from(at)),
        ParseRefusal::TooDeep { at } => (b"TooDeep", u64::from(at)),
        ParseRefusal::Memory => (b"Memory", 0),
    }
}

/// What is wrong with a script: its name, and the place or the length that is written behind the
/// name of the file.
fn said_of(refusal: ScriptRefusal) -> (&'static [u8], u64)
    ensures name { result.0.now ≡ (said_of refusal).0 }
    ensures number { result.1 ≡ (said_of refusal).1 }
{
    match refusal {
        ScriptRefusal::Lex(refusal) => lexed(refusal),
        ScriptRefusal::Parse(refusal) => parsed(refusal),
    }
}

fn script_text(alloc: Global, name: &[u8], refusal: ScriptRefusal) -> Result<Bytes, NoMemory>
    ensures { IfOk result
        (λ text. text ≡ counted_text (said_of refusal).0 name.now (said_of refusal).1) }
{
    let (kind, number) = said_of(refusal);
    counted_text(alloc, kind, name, number)
}

fn load_text(alloc: Global, refusal: &LoadRefusal) -> Result<Bytes, NoMemory>
    ensures { IfOk result (λ text. text ≡ load_text refusal.now) }
{
    match refusal {
        LoadRefusal::Missing { name } => named_text(alloc, b"Missing", name.as_slice()),
        LoadRefusal::Outside { name } => named_text(alloc, b"Outside", name.as_slice()),
        LoadRefusal::ReadFault { name } => named_text(alloc, b"ReadFault", name.as_slice()),
        LoadRefusal::TooLong { name, len } => {
            counted_text(alloc, b"TooLong", name.as_slice(), *len)
        }
        LoadRefusal::Script { name, refusal } => script_text(alloc, name.as_slice(), *refusal),
        LoadRefusal::IncludeCycle { name } => named_text(alloc, b"IncludeCycle", name.as_slice()),
        LoadRefusal::DoubleFunction { name } => {
            named_text(alloc, b"DoubleFunction", name.as_slice())
        }
        LoadRefusal::UnknownFunction { name } => {
            named_text(alloc, b"UnknownFunction", name.as_slice())
        }
        LoadRefusal::Arity { name } => named_text(alloc, b"Arity", name.as_slice()),
        LoadRefusal::TooMany { count } => number_text(alloc, b"TooMany", *count),
        LoadRefusal::Memory => Bytes::from_slice(alloc, NO_MEMORY),
    }
}

fn load_status(refusal: &LoadRefusal) -> Exit
    ensures { result ≡ load_status refusal.now }
{
    match refusal {
        LoadRefusal::Missing { .. } => Exit::Missing,
        LoadRefusal::ReadFault { .. } => Exit::ReadFault,
        LoadRefusal::TooLong { .. } | LoadRefusal::TooMany { .. } => Exit::Input,
        LoadRefusal::Script { .. } | LoadRefusal::IncludeCycle { .. } => Exit::Script,
        LoadRefusal::DoubleFunction { .. } | LoadRefusal::UnknownFunction { .. } => Exit::Script,
        LoadRefusal::Arity { .. } | LoadRefusal::Outside { .. } => Exit::Script,
        LoadRefusal::Memory => Exit::Memory,
    }
}

/// Why a program is not loaded, with the name of the file or function that it is about.
pub fn load_refusal(alloc: Global, refusal: &LoadRefusal) -> Refusal
    ensures { IsTold result (load_status refusal.now) (load_text refusal.now) }
{
    told(load_status(refusal), load_text(alloc, refusal))
}
