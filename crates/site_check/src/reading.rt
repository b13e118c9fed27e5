//! Names are asked for once.

ghost use Rattle.std.specs.Prelude.{◌≡◌, ◌≢◌, ◌≤◌, ◌+◌, length, Some, Err, IfOk, IfErr, bytes_eq};
ghost use Rattle.std.specs.Map.{lookup};
ghost use Rattle.text_base.specs.declared.limits.TheConstants.{FILE_LIMIT};
ghost use Rattle.io_edge.specs.Counts.{one_more};
ghost use Rattle.io_edge.specs.Told.{Tells, Stays, untold};
ghost use Rattle.io_edge.specs.Reasons.{HasReason};
ghost use Rattle.site_check.specs.declared.kept_files.TheConstants.{KEPT_LIMIT};
ghost use Rattle.site_check.specs.Kept.{nothing_kept, told_with, total_size};
ghost use Rattle.site_check.specs.Answers.{IsAsked, KeepsAnswer, AnswersAgain, AsksOnce};
ghost use Rattle.site_check.specs.Views.{kept_by, inner_of, read_count, missed_count, kept_of};

use crate::kept_files::{KeptFile, KeptFiles};
use crate::read_once::ReadOnce;
use io_edge::{FileFault, FileKind, Files};
use std::alloc::Global;
use text_base::Bytes;

impl<F: Files> ReadOnce<F> {
    /// The files of a source, of which none was asked for yet. Takes no memory.
    pub fn new(alloc: Global, inner: F) -> ReadOnce<F>
        ensures inner { inner_of result ≡ inner }
        ensures kept { kept_by result ≡ nothing_kept }
        ensures reads { read_count result ≡ 0 }
        ensures missed { missed_count result ≡ 0 }
    {
        ReadOnce {
            inner,
            kept: KeptFiles::new(alloc),
            missed: 0,
            reads: 0,
        }
    }
}

// Asks the source for a name, and keeps what it answers.
fn ask<F: Files>(
    alloc: Global,
    inner: &mut F,
    kept: &mut KeptFiles,
    name: &str,
    kind: FileKind,
) -> Result<Bytes, FileFault>
    requires { IsAsked (lookup (bytes_eq name.now) (kept_of kept.old).files) }
    ensures kept { KeepsAnswer (kept_of kept.old) (kept_of kept.new) name.now result }
    ensures content { IfOk result (λ bytes. Tells (F.content inner.new name.now) (Some bytes)) }
    ensures limit { IfOk result (λ bytes. length bytes ≤ FILE_LIMIT) }
    ensures reason { IfErr result (λ fault. HasReason (F.content inner.new name.now)
        (F.faults inner.old) (F.faults inner.new) (F.misses inner.old) (F.misses inner.new) fault) }
    ensures stays { Stays (F.content inner.old) (F.content inner.new) }
    ensures faults { F.faults inner.old ≤ F.faults inner.new }
    ensures misses { F.misses inner.old ≤ F.misses inner.new }
    ensures unfailed { result ≢ Err FileFault.Failed → F.faults inner.new ≡ F.faults inner.old }
    ensures unmissed { result ≢ Err FileFault.Missing → F.misses inner.new ≡ F.misses inner.old }
    ensures asked { AsksOnce F.reads inner.old inner.new result }
{
    let key = Bytes::from_slice(alloc, name.as_bytes())?;
    kept.reserve()?;
    match inner.read(alloc, name, kind) {
        Ok(bytes) => {
            kept.keep_bytes(alloc, key, &bytes)?;
            Ok(bytes)
        }
        Err(FileFault::Missing) => {
            kept.keep_none(key, KeptFile::Missing);
            Err(FileFault::Missing)
        }
        Err(FileFault::TooLong { len }) => {
            kept.keep_none(key, KeptFile::Long);
            Err(FileFault::TooLong { len })
        }
        Err(fault) => Err(fault),
    }
}

impl<F: Files> Files for ReadOnce<F> {
    ghost content = { λ r name. told_with (kept_by r) (F.content (inner_of r)) name };

    ghost faults = { λ r. F.faults (inner_of r) };

    ghost misses = { λ r. F.misses (inner_of r) + missed_count r };

    ghost reads = { λ r. read_count r };

    fn read(&mut self, alloc: Global, name: &str, kind: FileKind) -> Result<Bytes, FileFault>
        ensures content { IfOk result (λ bytes.
            Tells (told_with (kept_by self.new) (F.content (inner_of self.new)) name.now)
            (Some bytes)) }
        ensures limit { IfOk result (λ bytes. length bytes ≤ FILE_LIMIT) }
        ensures reason { IfErr result (λ fault.
            HasReason (told_with (kept_by self.new) (F.content (inner_of self.new)) name.now)
            (F.faults (inner_of self.old)) (F.faults (inner_of self.new))
            (F.misses (inner_of self.old) + missed_count self.old)
            (F.misses (inner_of self.new) + missed_count self.new) fault) }
        ensures stays { Stays (told_with (kept_by self.old) (F.content (inner_of self.old)))
            (told_with (kept_by self.new) (F.content (inner_of self.new))) }
        ensures faults { F.faults (inner_of self.old) ≤ F.faults (inner_of self.new) }
        ensures misses { F.misses (inner_of self.old) + missed_count self.old ≤ F.misses
            (inner_of self.new) + missed_count self.new }
        ensures unfailed { result ≢ Err FileFault.Failed → F.faults (inner_of self.new)
            ≡ F.faults (inner_of self.old) }
        ensures unmissed { result ≢ Err FileFault.Missing → F.misses (inner_of self.new)
            + missed_count self.new ≡ F.misses (inner_of self.old) + missed_count self.old }
        ensures asked { read_count self.new ≡ one_more (read_count self.old) }

        // What comes of the first question for a name is kept, for which the other source is asked
        // once; the next ones are answered by it, and the other source is not asked, but for a file
        // that is too long.
        ensures first { IsAsked (lookup (bytes_eq name.now) (kept_by self.old).files)
            → KeepsAnswer (kept_by self.old) (kept_by self.new) name.now result
            × (missed_count self.new ≡ missed_count self.old)
            × AsksOnce F.reads (inner_of self.old) (inner_of self.new) result }
        ensures again { (file : KeptFile)
            → lookup (bytes_eq name.now) (kept_by self.old).files ≡ Some file
            → (IsAsked (Some file) → ⊥) → AnswersAgain file (missed_count self.old) (missed_count self.new) result
            × (inner_of self.new ≡ inner_of self.old) × (kept_by self.new ≡ kept_by self.old) }
        ensures within { total_size (kept_by self.new).files ≤ KEPT_LIMIT }
    {
        self.reads = self.reads.saturating_add(1);
        let key = Bytes::from_slice(alloc, name.as_bytes())?;
        match self.kept.answer(alloc, &key) {
            Some(answer) => {
                if answer == Err(FileFault::Missing) {
                    self.missed = self.missed.saturating_add(1);
                }
                answer
            }
            None => ask(alloc, &mut self.inner, &mut self.kept, name, kind),
        }
    }
}

#[cfg(test)]
mod tests {
    use super::*;
    use io_edge::DiskFiles;
    use std::test::Fail;
    use std::{env, fs};

    /// Gives the number of the call, but at the third, at which there is no file.
    #[derive(Drop)]
    struct ChangingFiles {
        calls: u64,
        misses: u64,
    }

    impl Files for ChangingFiles {
        ghost content = { λ _ _. untold };

        ghost faults = { λ _. 0 };

        ghost misses = { λ c. c.misses };

        ghost reads = { λ c. c.calls };

        fn read(&mut self, alloc: Global, _: &str, _: FileKind) -> Result<Bytes, FileFault> {
            self.calls = self.calls.saturating_add(1);
            if self.calls == 3 {
                self.misses = self.misses.saturating_add(1);
                return Err(FileFault::Missing);
            }
            let digit = b'0' + (self.calls % 10) as u8;
            Ok(Bytes::from_slice(alloc, &[digit])?)
        }
    }

    #[test]
    fn asks_once_for_a_name(rt: HostRuntime) -> Result<(), Fail> {
        let alloc = rt.alloc();
        let changing = ChangingFiles {
            calls: 0,
            misses: 0,
        };
        let mut files = ReadOnce::new(alloc, changing);
        for (name, wanted) in [
            ("t.php", Ok(b'1')),
            ("u.php", Ok(b'2')),
            ("t.php", Ok(b'1')),
            ("gone.php", Err(FileFault::Missing)),
            ("gone.php", Err(FileFault::Missing)),
            ("u.php", Ok(b'2')),
        ] {
            let answer = files.read(alloc, name, FileKind::Regular);
            let first = answer.map(|bytes| bytes.as_slice().first().copied().unwrap_or(0));
            assert_eq!(rt; first, wanted, "{name}");
        }
        let counts = (
            files.inner.calls,
            files.inner.misses,
            files.missed,
            files.reads,
        );
        assert_eq!(rt; counts, (3, 1, 1, 6));
        Ok(())
    }

    #[test]
    fn files_of_the_disk(rt: HostRuntime) -> Result<(), Fail> {
        let alloc = rt.alloc();
        let folder = env::temp_dir(&rt)?;
        let page = folder.join(alloc, "site_check_page")?;
        let other = folder.join(alloc, "site_check_other")?;
        fs::write(&rt, page.as_str(), "<html/>")?;
        fs::write(&rt, other.as_str(), "<p>")?;
        let mut files = ReadOnce::new(alloc, DiskFiles::new(&rt, rt.stdin()));
        let first = files.read(alloc, page.as_str(), FileKind::Regular)?;
        let second = files.read(alloc, other.as_str(), FileKind::Any)?;
        let device = "/dev/null";
        for (kind, wanted) in [
            (FileKind::Regular, Err(FileFault::Failed)),
            (FileKind::Any, Ok(0)),
        ] {
            let answer = files.read(alloc, device, kind).map(|bytes| bytes.len());
            assert_eq!(rt; answer, wanted, "{device}");
        }
        fs::write(&rt, page.as_str(), "changed")?;
        let again = files.read(alloc, page.as_str(), FileKind::Regular)?;
        fs::remove_file(&rt, page.as_str())?;
        fs::remove_file(&rt, other.as_str())?;
        assert_eq!(rt; first.as_slice(), b"<html/>".as_slice());
        assert_eq!(rt; second.as_slice(), b"<p>".as_slice());
        assert_eq!(rt; again.as_slice(), b"<html/>".as_slice());
        Ok(())
    }
}
