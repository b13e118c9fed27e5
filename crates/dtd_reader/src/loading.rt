//! The texts of files.

ghost use Rattle.std.specs.Prelude.{◌≤◌, length, IfOk};
ghost use Rattle.text_base.specs.declared.limits.TheConstants.{FILE_LIMIT};
ghost use Rattle.io_edge.specs.Told.{Content, Stays, Tells};
ghost use Rattle.dtd_reader.specs.Source.{source_call, Counted};
ghost use Rattle.dtd_reader.specs.Views.{IsBehind, IsLoaded, LoadedCounts};

use crate::outcome::Loaded;
use dtd_declarations::behind_declaration;
use io_edge::{FileFault, FileKind, Files};
use std::alloc::Global;
use text_base::{Bytes, NoMemory};

// The text behind a byte order mark and a text declaration, and how many bytes these have.
fn text_behind(alloc: Global, whole: &[u8]) -> Result<Loaded, NoMemory>
    requires { length whole.now ≤ FILE_LIMIT }
    ensures { IfOk result (IsBehind whole.now) }
{
    let behind = behind_declaration(alloc, whole)?;
    let over = whole.len().saturating_sub(behind.len()) as u64;
    let text = Bytes::from_slice(alloc, behind)?;
    Ok(Loaded::Text(text, over))
}

/// The text of this file behind its text declaration, or why it was not read.
pub fn load<F: Files>(alloc: Global, files: &mut F, path: &str) -> Result<Loaded, NoMemory>
    ensures loaded { IfOk result (IsLoaded (F.content files.new) path.now) }
    ensures counted { Counted LoadedCounts
        (source_call (F.content files.new) (F.faults files.old) (F.faults files.new)
        (F.misses files.old) (F.misses files.new)) result }
    ensures stays { Stays (F.content files.old) (F.content files.new) }
{
    let name = Bytes::from_slice(alloc, path.as_bytes())?;
    match files.read(alloc, path, FileKind::Regular) {
        Ok(whole) => {
            let loaded = text_behind(alloc, whole.as_slice())?;
            Ok(loaded)
        }
        Err(FileFault::Missing) => Ok(Loaded::NotRead(name, FileFault::Missing)),
        Err(FileFault::Failed) => Ok(Loaded::NotRead(name, FileFault::Failed)),
        Err(FileFault::TooLong { len }) => Ok(Loaded::NotRead(name, FileFault::TooLong { len })),
        Err(FileFault::Memory) => Err(NoMemory),
    }
}
