//! The lines that texts are made of.

ghost use Rattle.std.specs.Prelude.{◌≡◌, ◌++◌, OnOk, IfOk};
ghost use Rattle.std.specs.Fmt.{decimal};
ghost use Rattle.phpsa_texts.specs.Texts.{counted_text, kind_text, named_text, number_text};

use crate::shown::shown_name;
use std::alloc::Global;
use text_base::{Bytes, NoMemory};

/// The text of a want of memory.
pub const NO_MEMORY: &[u8] = b"phpsa: Memory\n";

/// The text of a write fault.
pub const WRITE_FAULT: &[u8] = b"phpsa: WriteFault\n";

pub(crate) fn append_number(alloc: Global, text: &mut Bytes, number: u64) -> Result<(), NoMemory>
    ensures { OnOk result (text.new ≡ text.old ++ decimal number) }
{
    let digits = number.to_string(alloc)?;
    text.append(digits.as_bytes())?;
    Ok(())
}

/// `phpsa: KIND VALUE`.
pub(crate) fn kind_text(alloc: Global, kind: &[u8], value: &[u8]) -> Result<Bytes, NoMemory>
    ensures { IfOk result (λ text. text ≡ kind_text kind.now value.now) }
{
    let mut text = Bytes::from_slice(alloc, b"phpsa: ")?;
    text.append(kind)?;
    text.append(b" ")?;
    text.append(value)?;
    text.append(b"\n")?;
    Ok(text)
}

/// `phpsa: KIND NAME`.
pub(crate) fn named_text(alloc: Global, kind: &[u8], name: &[u8]) -> Result<Bytes, NoMemory>
    ensures { IfOk result (λ text. text ≡ named_text kind.now name.now) }
{
    let shown = shown_name(alloc, name)?;
    kind_text(alloc, kind, shown.as_slice())
}

/// `phpsa: KIND NUMBER`.
pub(crate) fn number_text(alloc: Global, kind: &[u8], number: u64) -> Result<Bytes, NoMemory>
    ensures { IfOk result (λ text. text ≡ number_text kind.now number) }
{
    let digits = number.to_string(alloc)?;
    kind_text(alloc, kind, digits.as_bytes())
}

/// `phpsa: KIND NAME NUMBER`.
pub(crate) fn counted_text(
    alloc: Global,
    kind: &[u8],
    name: &[u8],
    number: u64,
) -> Result<Bytes, NoMemory>
    ensures { IfOk result (λ text. text ≡ counted_text kind.now name.now number) }
{
    let mut value = shown_name(alloc, name)?;
    value.append(b" ")?;
    append_number(alloc, &mut value, number)?;
    kind_text(alloc, kind, value.as_slice())
}
