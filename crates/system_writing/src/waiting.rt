//! Texts that wait until it is known which sets say yes.

ghost use Rattle.std.specs.Prelude.{◌≡◌, ℕ, false, get_or, OnOk};
ghost use Rattle.system_writing.specs.Steps.{WritesWhere, WritesWaiting};

use crate::lines::{Lines, add_text};
use text_base::{Bytes, NoMemory};

/// A text of a set, where another set says yes.
#[derive(Debug, Drop)]
pub struct Waiting {
    pub set: u64,
    pub text: Bytes,
    pub other: u64,
}

/// Whether a number is marked.
fn is_marked(marks: &[bool], n: u64) -> bool
    ensures { result ≡ get_or marks.now n false }
{
    match marks.get(n as usize) {
        Some(mark) => *mark,
        None => false,
    }
}

/// Writes a text, if the other set is marked.
fn add_where(lines: &mut Lines, marks: &[bool], text: &Waiting) -> Result<(), NoMemory>
    ensures { OnOk result (WritesWhere marks.now lines.old lines.new text.now) }
{
    if is_marked(marks, text.other) {
        return add_text(lines, text.set, text.text.as_slice());
    }
    Ok(())
}

/// Writes those of the texts of which the other set is marked.
pub(crate) fn add_waiting(
    lines: &mut Lines,
    marks: &[bool],
    texts: &[Waiting],
) -> Result<(), NoMemory>
    ensures { OnOk result (WritesWaiting marks.now lines.old lines.new texts.now) }
{
    for text in texts {
        add_where(lines, marks, text)?;
    }
    Ok(())
}
