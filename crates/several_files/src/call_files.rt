//! The source of several calls.

ghost use Rattle.std.specs.Prelude.{◌≡◌, ◌≢◌, ◌≤◌, None, Some, Err, IfOk, IfErr, length};
ghost use Rattle.io_edge.specs.Reasons.{HasReason};
ghost use Rattle.io_edge.specs.Told.{known};
ghost use Rattle.several_files.specs.Files.{told_beside, inner_of, list_of, read_count};

use io_edge::{FileFault, FileKind, Files, normal_name};
use std::alloc::Global;
use std::mem;
use text_base::limits::FILE_LIMIT;
use text_base::{Bytes, NoMemory};

/// The name of the list that is held: that of no file, since it has a byte 0.
pub const LIST_NAME: &str = "names\0";

/// The files of another source for several calls, and a list of names beside them, if one is held.
/// It notes which files are parts of a program: those that are asked for as regular files.
#[derive(Drop)]
pub struct CallFiles<F> {
    pub(crate) inner: F,
    pub(crate) list: Option<Bytes>,
    pub(crate) included: Vec<String>,
    pub(crate) reads: u64,
}

/// The list, as a file.
fn given(alloc: Global, list: &Bytes) -> Result<Bytes, FileFault>
    ensures ok { IfOk result (λ bytes. (bytes ≡ list.now) × (length bytes ≤ FILE_LIMIT)) }
    ensures long { IfErr result (λ fault. HasReason (known (Some list.now)) 0 0 0 0 fault) }
    ensures unfailed { result ≢ Err FileFault.Failed }
    ensures unmissed { result ≢ Err FileFault.Missing }
{
    if list.len() > FILE_LIMIT {
        return Err(FileFault::TooLong {
            len: list.len() as u64,
        });
    }
    Ok(list.copy(alloc)?)
}

/// Puts the normal form of a name behind others.
fn note(alloc: Global, names: &mut Vec<String>, name: &str) -> Result<(), NoMemory> {
    let name = normal_name(alloc, name)?;
    names.push(name)?;
    Ok(())
}

impl<F: Files> CallFiles<F> {
    /// The files of a source, and no list.
    pub fn new(alloc: Global, inner: F) -> CallFiles<F>
        ensures inner { inner_of result ≡ inner }
        ensures list { list_of result ≡ None }
        ensures reads { read_count result ≡ 0 }
    {
        CallFiles {
            inner,
            list: None,
            included: Vec::new(alloc),
            reads: 0,
        }
    }

    /// Holds this list from now on.
    pub(crate) fn hold(&mut self, list: Bytes)
        ensures inner { inner_of self.new ≡ inner_of self.old }
        ensures list { list_of self.new ≡ Some list }
        ensures reads { read_count self.new ≡ read_count self.old }
    {
        self.list = Some(list);
    }

    /// The normal names of the files that were noted, of which none is noted from now on.
    pub(crate) fn take_included(&mut self, alloc: Global) -> Vec<String>
        ensures inner { inner_of self.new ≡ inner_of self.old }
        ensures list { list_of self.new ≡ list_of self.old }
        ensures reads { read_count self.new ≡ read_count self.old }
    {
        mem::replace(&mut self.included, Vec::new(alloc))
    }
}

impl<F: Files> Files for CallFiles<F> {
    ghost content = { λ c name. told_beside (list_of c) (F.content (inner_of c)) name };

    ghost faults = { λ c. F.faults (inner_of c) };

    ghost misses = { λ c. F.misses (inner_of c) };

    ghost reads = { λ c. read_count c };

    fn read(&mut self, alloc: Global, name: &str, kind: FileKind) -> Result<Bytes, FileFault> {
        self.reads = self.reads.saturating_add(1);
        if let Some(list) = &self.list {
            if name == LIST_NAME {
                return given(alloc, list);
            }
        }
        let bytes = self.inner.read(alloc, name, kind)?;
        if kind == FileKind::Regular {
            note(alloc, &mut self.included, name)?;
        }
        Ok(bytes)
    }
}
