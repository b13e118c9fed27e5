// Files in memory.
ghost use Rattle.std.specs.Prelude.{◌≡◌, ◌≢◌, ◌≤◌, [], Err, length, IfErr, IfOk, IsErrOf, IsOk, Some};
ghost use Rattle.std.specs.Option.{option_copied};
ghost use Rattle.io_edge.specs.Counts.{one_more};
ghost use Rattle.io_edge.specs.Reasons.{HasReason};
ghost use Rattle.io_edge.specs.Told.{Tells, known};
ghost use Rattle.io_edge.specs.Planned.{file_named, is_planned, planned_answer};
ghost use Rattle.io_edge.specs.MemFiles.{held_files, planned_faults, calls_made, fault_count, miss_count};

use crate::{FileFault, FileKind, Files};
use std::alloc::Global;
use text_base::Bytes;
use text_base::limits::FILE_LIMIT;

/// Files that are held in memory, and the numbers of the calls that are to fail. Calls are numbered
/// from 0.
#[derive(Drop)]
pub struct MemFiles {
    files: Vec<(Bytes, Bytes)>,
    fail: Vec<u64>,
    calls: u64,
    faults: u64,
    misses: u64,
}

impl MemFiles {
    /// Holds these files, each a name and its bytes. Where a name stands more than once, its first
    /// file counts.
    pub fn new(files: Vec<(Bytes, Bytes)>, fail: Vec<u64>) -> MemFiles
        ensures files { held_files result ≡ files.items }
        ensures planned { planned_faults result ≡ fail.items }
        ensures calls { calls_made result ≡ 0 }
        ensures faults { fault_count result ≡ 0 }
        ensures misses { miss_count result ≡ 0 }
    {
        MemFiles {
            files,
            fail,
            calls: 0,
            faults: 0,
            misses: 0,
        }
    }

    fn answer(&self, alloc: Global, name: &str) -> Result<Bytes, FileFault>
        ensures answer { result ≢ Err FileFault.Memory → result ≡ planned_answer
            (is_planned (planned_faults self.now) (calls_made self.now))
            (file_named name.now (held_files self.now)) }
        ensures memory { IsErrOf result FileFault.Memory → IsOk (planned_answer
            (is_planned (planned_faults self.now) (calls_made self.now))
            (file_named name.now (held_files self.now))) }
    {
        if self.fail.contains(&self.calls) {
            return Err(FileFault::Failed);
        }
        let bytes = file_of(&self.files, name.as_bytes()).ok_or(FileFault::Missing)?;
        if bytes.len() > FILE_LIMIT {
            return Err(FileFault::TooLong {
                len: FILE_LIMIT as u64 + 1,
            });
        }
        Ok(Bytes::from_slice(alloc, bytes.as_slice())?)
    }
}

fn file_of<'a>(files: &'a [(Bytes, Bytes)], name: &[u8]) -> Option<&'a Bytes>
    ensures { option_copied result ≡ file_named name.now files.now }
{
    let mut rest = files;
    while let [file, after @ ..] = rest {
        if file.0.as_slice() == name {
            return Some(&file.1);
        }
        rest = after;
    }
    None
}

impl Files for MemFiles {
    ghost content = { λ m name. known (file_named name (held_files m)) };

    ghost faults = { λ m. fault_count m };

    ghost misses = { λ m. miss_count m };

    ghost reads = { λ m. calls_made m };

    fn read(&mut self, alloc: Global, name: &str, _: FileKind) -> Result<Bytes, FileFault>
        ensures content { IfOk result
            (λ bytes. Tells (known (file_named name.now (held_files self.new))) (Some bytes)) }
        ensures limit { IfOk result (λ bytes. length bytes ≤ FILE_LIMIT) }
        ensures reason { IfErr result
            (λ fault. HasReason (known (file_named name.now (held_files self.new)))
            (fault_count self.old) (fault_count self.new) (miss_count self.old)
            (miss_count self.new) fault) }
        ensures same { held_files self.new ≡ held_files self.old }
        ensures faults { fault_count self.old ≤ fault_count self.new }
        ensures misses { miss_count self.old ≤ miss_count self.new }
        ensures unfailed { result ≢ Err FileFault.Failed → fault_count self.new
            ≡ fault_count self.old }
        ensures unmissed { result ≢ Err FileFault.Missing → miss_count self.new
            ≡ miss_count self.old }
        ensures asked { calls_made self.new ≡ one_more (calls_made self.old) }

        // Want of memory aside, each answer is known beforehand, and memory is wanted only to give
        // a file's bytes.
        ensures answer { result ≢ Err FileFault.Memory → result ≡ planned_answer
            (is_planned (planned_faults self.old) (calls_made self.old))
            (file_named name.now (held_files self.old)) }
        ensures memory { IsErrOf result FileFault.Memory → IsOk (planned_answer
            (is_planned (planned_faults self.old) (calls_made self.old))
            (file_named name.now (held_files self.old))) }

        // A count rises by one at its own fault.
        ensures failed { IsErrOf result FileFault.Failed → fault_count self.new
            ≡ one_more (fault_count self.old) }
        ensures missed { IsErrOf result FileFault.Missing → miss_count self.new
            ≡ one_more (miss_count self.old) }
        ensures planned { planned_faults self.new ≡ planned_faults self.old }
    {
        let answer = self.answer(alloc, name);
        self.calls = self.calls.saturating_add(1);
        match &answer {
            Err(FileFault::Failed) => self.faults = self.faults.saturating_add(1),
            Err(FileFault::Missing) => self.misses = self.misses.saturating_add(1),
            _ => (),
        }
        answer
    }
}

#[cfg(test)]
mod tests {
    use super::*;
    use std::test::Fail;

    #[test]
    fn answers_as_planned(rt: HostRuntime) -> Result<(), Fail> {
        let alloc = rt.alloc();
        let mut held = Vec::new(alloc);
        held.push((
            Bytes::from_slice(alloc, b"t.php")?,
            Bytes::from_slice(alloc, b"<p>")?,
        ))?;
        let long = vec![in alloc; b'a'; FILE_LIMIT + 1]?;
        held.push((
            Bytes::from_slice(alloc, b"long.php")?,
            Bytes::from_vec(long),
        ))?;
        let mut files = MemFiles::new(held, vec![in alloc; 1]?);
        for (name, wanted) in [
            ("t.php", Ok(3)),
            ("t.php", Err(FileFault::Failed)),
            ("t.ph", Err(FileFault::Missing)),
            ("long.php", Err(FileFault::TooLong { len: 1_048_577 })),
            ("t.php", Ok(3)),
        ] {
            let answer = files
                .read(alloc, name, FileKind::Regular)
                .map(|bytes| bytes.len());
            assert_eq!(rt; answer, wanted, "{name}");
        }
        assert_eq!(rt; (files.faults, files.misses, files.calls), (1, 1, 5));
        Ok(())
    }
}
