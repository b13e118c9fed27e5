// The files of the system.
ghost use Rattle.std.specs.Prelude.{◌≤◌, length, ◌≡◌, IfSome, IfOk, IfErr};
ghost use Rattle.io_edge.specs.Reasons.{IsOverLimit};
ghost use Rattle.io_edge.specs.Told.{untold};

use crate::{FileFault, FileKind, Files};
use std::alloc::Global;
use std::io::{ErrorKind, Read};
use std::{fs, io, rt};
use text_base::Bytes;
use text_base::limits::FILE_LIMIT;

/// The name by which the standard input is asked for (POSIX.1-2017, 12.2, guideline 13).
const INPUT_NAME: &str = "-";

/// The files that a runtime reads from the system, and its standard input. They tell nothing of
/// what a name holds.
#[derive(Drop)]
pub struct DiskFiles<'a, R: rt::Files, I: Read + Drop> {
    rt: &'a R,
    input: Option<I>,
    faults: u64,
    misses: u64,
    reads: u64,
}

impl<'a, R: rt::Files, I: Read + Drop> DiskFiles<'a, R, I> {
    /// The files of this runtime, and this input. A name is a path of the system, from the current
    /// folder on; `-`, where a file of any kind is asked for, is the input, which is read once.
    pub fn new(rt: &'a R, input: I) -> DiskFiles<'a, R, I> {
        DiskFiles {
            rt,
            input: Some(input),
            faults: 0,
            misses: 0,
            reads: 0,
        }
    }

    /// The bytes of the input; the second time it has failed.
    fn read_input(&mut self, alloc: Global) -> Result<Bytes, FileFault>
        ensures limit { IfOk result (λ bytes. length bytes ≤ FILE_LIMIT) }
        ensures long { IfErr result IsOverLimit }
        ensures faults { self.new.faults ≡ self.old.faults }
        ensures misses { self.new.misses ≡ self.old.misses }
        ensures reads { self.new.reads ≡ self.old.reads }
    {
        match self.input.take() {
            Some(input) => {
                let mut input = input;
                read_bytes(alloc, &mut input)
            }
            None => Err(FileFault::Failed),
        }
    }
}

/// All bytes that the reader has left, up to one more than a file may have.
fn read_bytes<R: Read>(alloc: Global, reader: &mut R) -> Result<Bytes, FileFault>
    ensures known { IfOk result (λ bytes. IfSome (R.remaining reader.old) (λ xs. bytes ≡ xs)) }
    ensures limit { IfOk result (λ bytes. length bytes ≤ FILE_LIMIT) }
    ensures long { IfErr result IsOverLimit }
{
    let mut bytes = Vec::new(alloc);
    let mut chunk = [0u8; 8192];
    for _ in 0..u64::MAX {
        let left = (FILE_LIMIT + 1 - bytes.len()).min(chunk.len());
        match reader.read(&mut chunk[..left]) {
            Ok(0) => return Ok(Bytes::from_vec(bytes)),
            Ok(n) => {
                if bytes.extend_from_slice(&chunk[..n]).is_err() {
                    return Err(FileFault::Memory);
                }
                if bytes.len() > FILE_LIMIT {
                    return Err(FileFault::TooLong {
                        len: bytes.len() as u64,
                    });
                }
            }
            Err(e) => {
                if e.kind() != ErrorKind::Interrupted {
                    return Err(FileFault::Failed);
                }
            }
        }
    }
    Err(FileFault::Failed)
}

/// Why the system does not give a file.
fn fault_of(e: &io::Error) -> FileFault
    ensures { IsOverLimit result }
{
    match e.kind() {
        ErrorKind::NotFound => FileFault::Missing,
        ErrorKind::OutOfMemory => FileFault::Memory,
        _ => FileFault::Failed,
    }
}

/// Of what is no regular file, and is asked for as one, the system is asked nothing but that.
fn read_file<R: rt::Files>(
    alloc: Global,
    rt: &R,
    name: &str,
    kind: FileKind,
) -> Result<Bytes, FileFault>
    ensures limit { IfOk result (λ bytes. length bytes ≤ FILE_LIMIT) }
    ensures long { IfErr result IsOverLimit }
{
    if kind == FileKind::Regular {
        match fs::metadata(rt, name) {
            Ok(metadata) => {
                if !metadata.is_file() {
                    return Err(FileFault::Failed);
                }
            }
            Err(e) => return Err(fault_of(&e)),
        }
    }
    match fs::open(rt, name) {
        Ok(file) => {
            let mut file = file;
            read_bytes(alloc, &mut file)
        }
        Err(e) => Err(fault_of(&e)),
    }
}

impl<R: rt::Files, I: Read + Drop> Files for DiskFiles<'_, R, I> {
    ghost content = { λ _ _. untold };

    ghost faults = { λ d. d.faults };

    ghost misses = { λ d. d.misses };

    ghost reads = { λ d. d.reads };

    fn read(&mut self, alloc: Global, name: &str, kind: FileKind) -> Result<Bytes, FileFault> {
        let answer = if kind == FileKind::Any && name == INPUT_NAME {
            self.read_input(alloc)
        } else {
            read_file(alloc, self.rt, name, kind)
        };
        self.reads = self.reads.saturating_add(1);
        match &answer {
            Err(FileFault::Missing) => self.misses = self.misses.saturating_add(1),
            Err(FileFault::Failed) => self.faults = self.faults.saturating_add(1),
            _ => (),
        }
        answer
    }
}

#[cfg(test)]
mod tests {
    use super::*;
    use std::env;
    use std::test::Fail;

    /// Gives zeros in small pieces, is interrupted once, and fails at its end if that is asked.
    #[derive(Drop)]
    struct ZeroBytes {
        left: usize,
        is_interrupted: bool,
        fails: bool,
    }

    impl Read for ZeroBytes {
        fn read(&mut self, buf: &mut [u8]) -> io::Result<usize> {
            if !self.is_interrupted {
                self.is_interrupted = true;
                return Err(io::Error::from(ErrorKind::Interrupted));
            }
            if self.left == 0 && self.fails {
                return Err(io::Error::from(ErrorKind::Other));
            }
            let n = self.left.min(buf.len()).min(5000);
            buf[..n].fill(0);
            self.left -= n;
            Ok(n)
        }
    }

    #[test]
    fn reads_to_the_limit(rt: HostRuntime) -> Result<(), Fail> {
        let rows = [
            (0, false, Ok(0)),
            (FILE_LIMIT, false, Ok(FILE_LIMIT)),
            (9000, true, Err(FileFault::Failed)),
            (
                FILE_LIMIT + 1,
                true,
                Err(FileFault::TooLong { len: 1_048_577 }),
            ),
            (
                FILE_LIMIT * 2,
                false,
                Err(FileFault::TooLong { len: 1_048_577 }),
            ),
        ];
        for (left, fails, wanted) in rows {
            let mut reader = ZeroBytes {
                left,
                is_interrupted: false,
                fails,
            };
            let answer = read_bytes(rt.alloc(), &mut reader).map(|bytes| bytes.len());
            assert_eq!(rt; answer, wanted, "{left} bytes");
        }
        Ok(())
    }

    #[test]
    fn reads_real_files(rt: HostRuntime) -> Result<(), Fail> {
        let alloc = rt.alloc();
        let folder = env::temp_dir(&rt)?;
        let path = folder.join(alloc, "io_edge_reads_real_files")?;
        fs::write(&rt, path.as_str(), "<html/>\n")?;
        let below_a_file = path.join(alloc, "page")?;
        let missing = folder.join(alloc, "io_edge_missing")?;
        let input = ZeroBytes {
            left: 7,
            is_interrupted: false,
            fails: false,
        };
        let mut files = DiskFiles::new(&rt, input);
        for (name, kind, wanted) in [
            (path.as_str(), FileKind::Regular, Ok(8)),
            (path.as_str(), FileKind::Any, Ok(8)),
            (missing.as_str(), FileKind::Regular, Err(FileFault::Missing)),
            (missing.as_str(), FileKind::Any, Err(FileFault::Missing)),
            (folder.as_str(), FileKind::Regular, Err(FileFault::Failed)),
            (folder.as_str(), FileKind::Any, Err(FileFault::Failed)),
            (
                below_a_file.as_str(),
                FileKind::Regular,
                Err(FileFault::Failed),
            ),
            ("/dev/null", FileKind::Any, Ok(0)),
            ("/dev/null", FileKind::Regular, Err(FileFault::Failed)),
            ("-", FileKind::Regular, Err(FileFault::Missing)),
            ("-", FileKind::Any, Ok(7)),
            ("-", FileKind::Any, Err(FileFault::Failed)),
        ] {
            let answer = files.read(alloc, name, kind).map(|bytes| bytes.len());
            assert_eq!(rt; answer, wanted, "{name}");
        }
        let bytes = files.read(alloc, path.as_str(), FileKind::Regular)?;
        assert_eq!(rt; bytes.as_slice(), b"<html/>\n".as_slice());
        fs::remove_file(&rt, path.as_str())?;
        assert_eq!(rt; (files.faults, files.misses, files.reads), (5, 3, 13));
        Ok(())
    }
}
