//! What the reading of a definition comes to, as a line.

use dtd_model::{Dtd, ElementRule};
use dtd_reader::{DtdRefusal, read_dtd};
use io_edge::MemFiles;
use std::alloc::{AllocError, Global};
use std::str;
use text_base::{Bytes, NoMemory};

fn shown(name: &Bytes) -> &str {
    str::from_utf8(name.as_slice()).unwrap_or("?")
}

fn refusal_line(alloc: Global, refusal: &DtdRefusal) -> Result<String, AllocError> {
    match refusal {
        DtdRefusal::Missing { name } => format!(in alloc; "Missing {}", shown(name)),
        DtdRefusal::ReadFault { name } => format!(in alloc; "ReadFault {}", shown(name)),
        DtdRefusal::TooLong { name, len } => format!(in alloc; "TooLong {} {len}", shown(name)),
        DtdRefusal::Outside { name } => format!(in alloc; "Outside {}", shown(name)),
        DtdRefusal::NotDtd { at } => format!(in alloc; "NotDtd {at}"),
        DtdRefusal::Entity { name } => format!(in alloc; "Entity {}", shown(name)),
        DtdRefusal::Twice { name } => format!(in alloc; "Twice {}", shown(name)),
        DtdRefusal::Undeclared { name } => format!(in alloc; "Undeclared {}", shown(name)),
        DtdRefusal::LeftOut { at } => format!(in alloc; "LeftOut {at}"),
        DtdRefusal::Limit { count } => format!(in alloc; "Limit {count}"),
        DtdRefusal::Memory => format!(in alloc; "Memory"),
    }
}

// An element: its name and content, and its attributes.
fn push_element(alloc: Global, line: &mut String, element: &ElementRule) -> Result<(), AllocError> {
    line.push_str(format!(in alloc; " {} {:?}", shown(&element.name), &element.content)?.as_str())?;
    for rule in element.attributes.as_slice() {
        line.push_str(format!(in alloc;
            " @{} {:?} {:?}",
            shown(&rule.name),
            &rule.kind,
            &rule.need
        )?.as_str())?;
    }
    Ok(())
}

/// The elements and the entities.
pub fn table_line(alloc: Global, dtd: &Dtd) -> Result<String, AllocError> {
    let mut line = String::from_str(alloc, "Ok")?;
    for element in dtd.elements.as_slice() {
        push_element(alloc, &mut line, element)?;
    }
    for name in dtd.entities.as_slice() {
        line.push_str(" &")?;
        line.push_str(shown(name))?;
    }
    Ok(line)
}

/// A source of these files, each a name and its bytes.
pub fn files_of(alloc: Global, files: &[(&str, &[u8])]) -> Result<MemFiles, NoMemory> {
    let mut held = Vec::new(alloc);
    for (name, bytes) in files {
        held.push((
            Bytes::from_slice(alloc, name.as_bytes())?,
            Bytes::from_slice(alloc, bytes)?,
        ))?;
    }
    Ok(MemFiles::new(held, Vec::new(alloc)))
}

/// What reading the file `d` comes to, where the folder of the call is the root.
pub fn outcome(alloc: Global, mut files: MemFiles) -> Result<String, AllocError> {
    match read_dtd(alloc, &mut files, ".", "d") {
        Ok(dtd) => table_line(alloc, &dtd),
        Err(refusal) => refusal_line(alloc, &refusal),
    }
}

/// What reading this text comes to, where the file `e` holds `<!ELEMENT e EMPTY>`, and there is no
/// other.
pub fn text_outcome(alloc: Global, text: &[u8]) -> Result<String, AllocError> {
    let rows = [
        ("d", text),
        (
            "e",
            b"<?xml encoding='utf-8'?><!ELEMENT e EMPTY>".as_slice(),
        ),
    ];
    let files = match files_of(alloc, rows.as_slice()) {
        Ok(files) => files,
        Err(_) => return Err(AllocError),
    };
    outcome(alloc, files)
}
