//! Folders among the names of `check`: their scripts.

use io_edge::{FileFault, Sink, StdSink};
use phpsa_texts::{Refusal, file_refusal, shown_name};
use several_files::{AskedFile, Checks, asked_checks};
use site_check::NAMES_LIMIT;
use std::io::ErrorKind;
use std::{fs, io};
use text_base::{Bytes, NoMemory};

/// The most folders that are listed for one.
const FOLDERS_LIMIT: u32 = 1_000_000;

/// The end of the names of scripts.
const SCRIPT_END: &str = ".php";

/// The folders that are still to be listed, and the scripts that were found.
#[derive(Drop)]
struct Walk {
    open: Vec<String>,
    found: Vec<String>,
}

/// What stands under a name in a folder.
#[derive(Clone, Copy)]
enum Entry {
    Folder,
    Script,
    Other,
}

/// What stands under this name. A link to a folder is passed over, and so is what is no regular
/// file; a link that leads nowhere is a script, so that it is told.
fn entry_at(rt: &HostRuntime, path: &str) -> Entry {
    if let Ok(own) = fs::symlink_metadata(rt, path) {
        if own.is_dir() {
            return Entry::Folder;
        }
    }
    if !path.ends_with(SCRIPT_END) {
        return Entry::Other;
    }
    match fs::metadata(rt, path) {
        Ok(metadata) => {
            if metadata.is_file() {
                Entry::Script
            } else {
                Entry::Other
            }
        }
        Err(_) => Entry::Script,
    }
}

/// Why a folder is not listed.
fn refusal_of(rt: &HostRuntime, error: &io::Error, folder: &str) -> Refusal {
    match error.kind() {
        ErrorKind::OutOfMemory => Refusal::Memory,
        _ => file_refusal(rt.alloc(), FileFault::Failed, folder.as_bytes()),
    }
}

/// Says that a name in this folder is no UTF-8, and is passed over.
fn tell_name(rt: &HostRuntime, folder: &str) -> Result<(), NoMemory> {
    let mut line = Bytes::from_slice(rt.alloc(), b"phpsa: NotUtf8 ")?;
    let shown = shown_name(rt.alloc(), folder.as_bytes())?;
    line.append(shown.as_slice())?;
    line.push(b'\n')?;
    let mut err = StdSink::new(rt, rt.stderr());
    let _ = err.put(line.as_slice());
    Ok(())
}

/// Puts what stands under a name to the others of its kind.
fn add_entry(rt: &HostRuntime, walk: &mut Walk, path: &str) -> Result<(), NoMemory> {
    match entry_at(rt, path) {
        Entry::Folder => walk.open.push(String::from_str(rt.alloc(), path)?)?,
        Entry::Script => walk.found.push(String::from_str(rt.alloc(), path)?)?,
        Entry::Other => {}
    }
    Ok(())
}

/// Lists one folder.
fn list_folder(rt: &HostRuntime, walk: &mut Walk, folder: &str) -> Result<(), Refusal> {
    let entries = match fs::read_dir(rt, folder) {
        Ok(entries) => entries,
        Err(error) => return Err(refusal_of(rt, &error, folder)),
    };
    for entry in entries {
        match entry {
            Ok(entry) => add_entry(rt, walk, entry.path().as_str())?,
            Err(error) => {
                if error.kind() != ErrorKind::InvalidFilename {
                    return Err(refusal_of(rt, &error, folder));
                }
                tell_name(rt, folder)?;
            }
        }
    }
    Ok(())
}

/// The scripts in a folder and below it: at most one more than may be checked at once.
fn scripts_in(rt: &HostRuntime, folder: &str) -> Result<Vec<String>, Refusal> {
    let alloc = rt.alloc();
    let mut walk = Walk {
        open: Vec::new(alloc),
        found: Vec::new(alloc),
    };
    list_folder(rt, &mut walk, folder)?;
    for _ in 0..FOLDERS_LIMIT {
        if walk.found.len() > NAMES_LIMIT {
            break;
        }
        let Some(next) = walk.open.pop() else {
            break;
        };
        list_folder(rt, &mut walk, next.as_str())?;
    }
    let Walk { open: _, found } = walk;
    Ok(found)
}

/// Whether the name is that of a folder; `-` is the standard input.
fn is_folder(rt: &HostRuntime, name: &str) -> bool {
    if name == "-" {
        return false;
    }
    match fs::metadata(rt, name) {
        Ok(metadata) => metadata.is_dir(),
        Err(_) => false,
    }
}

/// Puts a name to the others.
fn add_file(files: &mut Vec<AskedFile>, name: String, is_found: bool) -> Result<(), NoMemory> {
    files.push(AskedFile { name, is_found })?;
    Ok(())
}

/// Puts the scripts of a folder to the other names, in byte order.
fn add_folder(rt: &HostRuntime, files: &mut Vec<AskedFile>, folder: &str) -> Result<(), Refusal> {
    let mut found = scripts_in(rt, folder)?;
    if found.sort().is_err() {
        return Err(Refusal::Memory);
    }
    for name in found {
        add_file(files, name, true)?;
    }
    Ok(())
}

/// What is asked of `check`, where a folder is among its names: in its place stand the names of the
/// scripts in it and below it.
pub(crate) fn with_folders(rt: &HostRuntime, words: &[String]) -> Result<Option<Checks>, Refusal> {
    let Some(checks) = asked_checks(rt.alloc(), words)? else {
        return Ok(None);
    };
    let Checks { options, files } = checks;
    let mut all = Vec::new(rt.alloc());
    let mut has_folder = false;
    for file in files {
        let AskedFile { name, is_found } = file;
        if is_folder(rt, name.as_str()) {
            has_folder = true;
            add_folder(rt, &mut all, name.as_str())?;
        } else {
            add_file(&mut all, name, is_found)?;
        }
    }
    if !has_folder {
        return Ok(None);
    }
    Ok(Some(Checks {
        options,
        files: all,
    }))
}
