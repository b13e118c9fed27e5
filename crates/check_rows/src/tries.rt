// Whether the calls of a row end as it wishes.
use crate::calls::{Ending, Outside, call};
use crate::rows::{Cuts, Row};
use crate::wishes::are_met;
use anyhow::Result;
use phpsa_texts::Exit;
use std::alloc::Global;

const WRITE_FAULT: &[u8] = b"phpsa: WriteFault\n";

// Whether an ending is one of these statuses, and as is wished.
fn is_wished(alloc: Global, row: &Row, statuses: &[u8], ending: &Ending) -> Result<bool> {
    Ok(
        statuses.contains(&ending.exit.code())
            && are_met(alloc, row.wishes.as_slice(), ending.out.written())?
            && are_met(alloc, row.tellings.as_slice(), ending.err.written())?,
    )
}

// Whether an ending is one of these statuses, with a reply up to 2 and with a line of the program
// from there on; and as is wished, where that is said.
fn is_possible(alloc: Global, row: &Row, statuses: &[u8], ending: &Ending) -> Result<bool> {
    if !row.tellings.is_empty() || !row.wishes.is_empty() {
        return is_wished(alloc, row, statuses, ending);
    }
    let code = ending.exit.code();
    let out = ending.out.written();
    let err = ending.err.written();
    let is_form = if code <= 2 {
        err.is_empty() && out.ends_with(b"\n")
    } else {
        out.is_empty() && err.starts_with(b"phpsa: ") && err.ends_with(b"\n")
    };
    Ok(is_form && statuses.contains(&code))
}

// Whether the row ends in a possible way with each front of its first file.
fn cuts_are_so(
    alloc: Global,
    words: &Vec<String>,
    row: &Row,
    statuses: &[u8],
    cuts: Cuts,
) -> Result<bool> {
    let whole = match row.files.first() {
        None => 0,
        Some((_, bytes)) => bytes.len(),
    };
    for front in (0..whole.min(cuts.end)).step_by(cuts.step.max(1)) {
        let outside = Outside {
            front: Some(front),
            ..row.outside
        };
        let ending = call(alloc, words, row.files.as_slice(), outside)?;
        if !is_possible(alloc, row, statuses, &ending)? {
            return Ok(false);
        }
    }
    Ok(true)
}

// Whether a call with these rooms, of which `err` is for a text that is due, leaves the fronts of
// its texts that fit.
fn fits(
    alloc: Global,
    words: &Vec<String>,
    row: &Row,
    full: &Ending,
    rooms: (usize, usize),
) -> Result<bool> {
    let (room, err_room) = rooms;
    let outside = Outside {
        out: Some(room as u64),
        err: Some(err_room as u64),
        ..row.outside
    };
    let ending = call(alloc, words, row.files.as_slice(), outside)?;
    let out = full.out.written();
    let due = if room < out.len() {
        WRITE_FAULT
    } else {
        full.err.written()
    };
    let exit = if room < out.len() || err_room < due.len() {
        Exit::WriteFault
    } else {
        full.exit
    };
    Ok(
        ending.exit == exit
            && ending.out.written() == out.get(..room).unwrap_or(out)
            && ending.err.written() == due.get(..err_room).unwrap_or(due),
    )
}

// Whether the row ends so with each room of the outputs that it names.
fn rooms_are_so(alloc: Global, words: &Vec<String>, row: &Row, full: &Ending) -> Result<bool> {
    let most = full.out.written().len();
    let least = if row.rooms.out { 0 } else { most };
    for room in least..=most {
        let due = if room < most {
            WRITE_FAULT.len()
        } else {
            full.err.written().len()
        };
        let least = if row.rooms.err { 0 } else { due };
        for err_room in least..=due {
            if !fits(alloc, words, row, full, (room, err_room))? {
                return Ok(false);
            }
        }
    }
    Ok(true)
}

// Whether the calls of the files are for these names, in turn: each that fails is told, and one
// behind the last is not made.
fn reads_are_so(alloc: Global, words: &Vec<String>, row: &Row, full: &Ending) -> Result<bool> {
    for (place, name) in row.reads.iter().enumerate() {
        let outside = Outside {
            fails: Some(place as u64),
            ..row.outside
        };
        let ending = call(alloc, words, row.files.as_slice(), outside)?;
        let line = format!(in alloc; "phpsa: ReadFault {name}\n")?;
        let is_told = ending.err.written() == line.as_bytes();
        if ending.exit != Exit::ReadFault || !is_told || !ending.out.written().is_empty() {
            return Ok(false);
        }
    }
    let outside = Outside {
        fails: Some(row.reads.len() as u64),
        ..row.outside
    };
    let ending = call(alloc, words, row.files.as_slice(), outside)?;
    Ok(ending.exit == full.exit && ending.out.written() == full.out.written())
}

/// What of a row is not as it wishes, if anything is.
pub fn fault_of(
    alloc: Global,
    words: &Vec<String>,
    row: &Row,
    statuses: &[u8],
) -> Result<Option<&'static str>> {
    if let Some(cuts) = row.cuts {
        let are_so = cuts_are_so(alloc, words, row, statuses, cuts)?;
        return Ok(if are_so { None } else { Some("a cut") });
    }
    let full = call(alloc, words, row.files.as_slice(), row.outside)?;
    if !is_wished(alloc, row, statuses, &full)? {
        return Ok(Some("the call"));
    }
    if (row.rooms.out || row.rooms.err) && !rooms_are_so(alloc, words, row, &full)? {
        return Ok(Some("a room"));
    }
    if !row.reads.is_empty() && !reads_are_so(alloc, words, row, &full)? {
        return Ok(Some("a read"));
    }
    Ok(None)
}
