//! Of a run that does not come to its end.

ghost use Rattle.std.specs.Prelude.{◌≡◌, IfOk};
ghost use Rattle.phpsa_texts.specs.Statuses.{fault_status};
ghost use Rattle.phpsa_texts.specs.Texts.{Says, deep_text, fault_kind, fault_number, fault_text, numbered_fault, spent_text};
ghost use Rattle.phpsa_texts.specs.declared.exit.Exit.TheVariants.{Deep, Spent};

use crate::exit::Exit;
use crate::lines::{NO_MEMORY, append_number, number_text};
use crate::message::Message;
use plain_values::Fault;
use std::alloc::Global;
use text_base::limits::CALL_LIMIT;
use text_base::{Bytes, NoMemory};

fn fault_number(fault: Fault) -> u64
    ensures { result ≡ fault_number fault }
{
    match fault {
        Fault::Float => 1,
        Fault::NotNumber => 2,
        Fault::BadIndex => 3,
        Fault::Compare => 4,
        Fault::Full => 5,
        Fault::NotUtf8 => 6,
        Fault::ZeroDivisor => 7,
        Fault::WrongType => 8,
        Fault::Long => 9,
        Fault::Memory => 0,
    }
}

fn fault_kind(fault: Fault) -> &'static [u8]
    ensures { result.now ≡ fault_kind fault }
{
    match fault {
        Fault::Float => b"Float",
        Fault::NotNumber => b"NotNumber",
        Fault::BadIndex => b"BadIndex",
        Fault::Compare => b"Compare",
        Fault::Full => b"Full",
        Fault::NotUtf8 => b"NotUtf8",
        Fault::ZeroDivisor => b"ZeroDivisor",
        Fault::WrongType => b"WrongType",
        Fault::Long => b"Long",
        Fault::Memory => b"Memory",
    }
}

fn fault_status(fault: Fault) -> Exit
    ensures { result ≡ fault_status fault }
{
    match fault {
        Fault::Memory => Exit::Memory,
        Fault::Float | Fault::NotNumber | Fault::BadIndex | Fault::Compare | Fault::Full => {
            Exit::Fault
        }
        Fault::NotUtf8 | Fault::ZeroDivisor | Fault::WrongType | Fault::Long => Exit::Fault,
    }
}

fn numbered_text(alloc: Global, fault: Fault) -> Result<Bytes, NoMemory>
    ensures { IfOk result (λ text. text ≡ numbered_fault (fault_number fault) (fault_kind fault)) }
{
    let mut text = Bytes::from_slice(alloc, b"phpsa: Fault ")?;
    append_number(alloc, &mut text, fault_number(fault))?;
    text.append(b" ")?;
    text.append(fault_kind(fault))?;
    text.append(b"\n")?;
    Ok(text)
}

fn fault_text(alloc: Global, fault: Fault) -> Result<Bytes, NoMemory>
    ensures { IfOk result (λ text. text ≡ fault_text fault) }
{
    match fault {
        Fault::Memory => Bytes::from_slice(alloc, NO_MEMORY),
        Fault::Float | Fault::NotNumber | Fault::BadIndex | Fault::Compare | Fault::Full => {
            numbered_text(alloc, fault)
        }
        Fault::NotUtf8 | Fault::ZeroDivisor | Fault::WrongType | Fault::Long => {
            numbered_text(alloc, fault)
        }
    }
}

/// That a run has met this fault.
pub fn fault_message(alloc: Global, fault: Fault) -> Result<Message, NoMemory>
    ensures { IfOk result (λ message. Says message (fault_status fault) (fault_text fault)) }
{
    let text = fault_text(alloc, fault)?;
    Ok(Message {
        status: fault_status(fault),
        text,
    })
}

/// That a run had none of so many units left.
pub fn spent_message(alloc: Global, steps: u64) -> Result<Message, NoMemory>
    ensures { IfOk result (λ message. Says message Spent (spent_text steps)) }
{
    let text = number_text(alloc, b"Spent", steps)?;
    Ok(Message {
        status: Exit::Spent,
        text,
    })
}

/// That a run would have had one more call open at once than may be.
pub fn deep_message(alloc: Global) -> Result<Message, NoMemory>
    ensures { IfOk result (λ message. Says message Deep deep_text) }
{
    let text = number_text(alloc, b"Deep", u64::from(CALL_LIMIT))?;
    Ok(Message {
        status: Exit::Deep,
        text,
    })
}
