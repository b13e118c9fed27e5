//! One name is asked for.

ghost use Rattle.std.specs.Prelude.{◌≡◌, ◌++◌, [], ◌∷◌, false, ◌≤◌, ◌<◌, IfOk, IfErr, OnOk, length};
ghost use Rattle.text_base.specs.declared.limits.TheConstants.{FILE_LIMIT};
ghost use Rattle.io_edge.specs.Told.{Stays};
ghost use Rattle.php_syntax.specs.Trees.{plain_file};
ghost use Rattle.program_rules.specs.declared.limits.TheConstants.{PLACE_LIMIT};
ghost use Rattle.program_files.specs.Order.{is_read};
ghost use Rattle.program_files.specs.View.{files_of};
ghost use Rattle.program_files.specs.Scripts.{IsScript};
ghost use Rattle.program_files.specs.Source.{source_call};
ghost use Rattle.program_files.specs.Steps.{is_among, state, written_in, AddsScript, AsksOne, IsOneCause, IsScriptCause, IsTreeCause, IsMissCause};

use crate::includes::find_includes;
use crate::places::Known;
use crate::refusal::LoadRefusal;
use crate::tree::{Unread, tree_of};
use io_edge::{FileFault, FileKind, Files};
use php_syntax::tree::FileTree;
use program_rules::limits::PLACE_LIMIT;
use std::alloc::Global;
use text_base::{Bytes, NoMemory, Stack};

/// Asks for a name: its file goes behind the others, and its includes take the place of the first
/// include, or the name is missed.
pub(crate) fn ask<F: Files>(
    alloc: Global,
    source: &mut F,
    known: Known,
    includes: &mut Stack<(Bytes, Bytes)>,
    place: &str,
) -> Result<Known, LoadRefusal>
    requires unread { is_read (files_of known.files) place.now ≡ false }
    requires unmissed { is_among known.missed.keys place.now ≡ false }
    ensures ok { IfOk result
        (λ more. AsksOne (source_call (F.content source.new) (F.faults source.old)
        (F.faults source.new)
        (F.misses source.old) (F.misses source.new) (F.reads source.old) (F.reads source.new))
        place.now (state (files_of known.files) known.missed.keys includes.old)
        (state (files_of more.files) more.missed.keys includes.new)) }
    ensures err { IfErr result
        (IsOneCause (source_call (F.content source.new) (F.faults source.old) (F.faults source.new)
        (F.misses source.old) (F.misses source.new) (F.reads source.old) (F.reads source.new))
        place.now (files_of known.files) known.missed.keys) }
    ensures stays { Stays (F.content source.old) (F.content source.new) }
{
    let name = Bytes::from_slice(alloc, place.as_bytes())?;
    let kind = if known.files.len() == 0 {
        FileKind::Any
    } else {
        FileKind::Regular
    };
    match source.read(alloc, place, kind) {
        Ok(script) => match with_script(alloc, known, includes, name, script.as_slice()) {
            Ok(more) => Ok(more),
            Err(refusal) => Err(refusal),
        },
        Err(FileFault::Missing) => match with_missed(known, name) {
            Ok(more) => Ok(more),
            Err(refusal) => Err(refusal),
        },
        Err(FileFault::Failed) => Err(LoadRefusal::ReadFault { name }),
        Err(FileFault::TooLong { len }) => Err(LoadRefusal::TooLong { name, len }),
        Err(FileFault::Memory) => Err(LoadRefusal::Memory),
    }
}

// One more name that was missed.
fn with_missed(known: Known, name: Bytes) -> Result<Known, LoadRefusal>
    requires { is_among known.missed.keys name ≡ false }
    ensures ok { IfOk result (λ more. (more.missed.keys ≡ known.missed.keys ++ name ∷ [])
        × (files_of more.files ≡ files_of known.files) × (length known.missed.keys < PLACE_LIMIT)) }
    ensures err { IfErr result (IsMissCause known.missed.keys) }
{
    if known.missed.len() as u64 >= PLACE_LIMIT {
        return Err(LoadRefusal::TooMany {
            count: PLACE_LIMIT + 1,
        });
    }
    let more = add_missed(known, name)?;
    Ok(more)
}

// The same without a limit.
fn add_missed(known: Known, name: Bytes) -> Result<Known, NoMemory>
    requires { is_among known.missed.keys name ≡ false }
    ensures { IfOk result (λ more. (more.missed.keys ≡ known.missed.keys ++ name ∷ [])
        × (files_of more.files ≡ files_of known.files)) }
{
    let Known { files, mut missed } = known;
    missed.insert(name)?;
    Ok(Known { files, missed })
}

// One more file, with this script.
fn with_script(
    alloc: Global,
    known: Known,
    includes: &mut Stack<(Bytes, Bytes)>,
    name: Bytes,
    script: &[u8],
) -> Result<Known, LoadRefusal>
    requires unread { is_read (files_of known.files) name ≡ false }
    requires short { length script.now ≤ FILE_LIMIT }
    ensures ok { IfOk result
        (λ more. AddsScript name script.now
        (state (files_of known.files) known.missed.keys includes.old)
        (state (files_of more.files) more.missed.keys includes.new)) }
    ensures err { IfErr result (IsScriptCause name script.now (files_of known.files)) }
{
    if known.files.len() as u64 > PLACE_LIMIT {
        return Err(LoadRefusal::TooMany {
            count: PLACE_LIMIT + 1,
        });
    }
    let tree = tree_at(alloc, &name, script)?;
    includes.pop();
    push_includes(alloc, &name, &tree, includes)?;
    let more = add_file(known, name, tree)?;
    Ok(more)
}

// The same of a tree, without a limit.
fn add_file(known: Known, name: Bytes, tree: FileTree) -> Result<Known, NoMemory>
    requires { is_read (files_of known.files) name ≡ false }
    ensures { IfOk result (λ more. (files_of more.files
        ≡ files_of known.files ++ record { name = name; tree = plain_file tree } ∷ [])
        × (more.missed.keys ≡ known.missed.keys)) }
{
    let Known { files, missed } = known;
    let files = files.with(name, tree)?;
    Ok(Known { files, missed })
}

// The tree of a script that stands under a name.
fn tree_at(alloc: Global, name: &Bytes, script: &[u8]) -> Result<FileTree, LoadRefusal>
    requires { length script.now ≤ FILE_LIMIT }
    ensures ok { IfOk result (λ tree. IsScript script.now (plain_file tree)) }
    ensures err { IfErr result (IsTreeCause name.now script.now) }
{
    match tree_of(alloc, script) {
        Ok(tree) => Ok(tree),
        Err(Unread::Script(refusal)) => match name.copy(alloc) {
            Ok(name) => Err(LoadRefusal::Script { name, refusal }),
            Err(_) => Err(LoadRefusal::Memory),
        },
        Err(Unread::Memory) => Err(LoadRefusal::Memory),
    }
}

// Puts the includes of a file before the others.
fn push_includes(
    alloc: Global,
    file: &Bytes,
    tree: &FileTree,
    includes: &mut Stack<(Bytes, Bytes)>,
) -> Result<(), NoMemory>
    ensures { OnOk result
        (includes.new ≡ written_in file.now (plain_file tree.now) ++ includes.old) }
{
    let mut found = Vec::new(alloc);
    find_includes(alloc, tree, &mut found)?;
    while let Some(written) = found.pop() {
        let name = file.copy(alloc)?;
        includes.push((name, written))?;
    }
    Ok(())
}
