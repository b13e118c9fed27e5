//! Which files a file includes, by their places.

ghost use Rattle.std.specs.Prelude.{◌≡◌, IfOk};
ghost use Rattle.php_syntax.specs.Trees.{plain_file};
ghost use Rattle.program_rules.specs.Includes.{includes_of_file};
ghost use Rattle.program_files.specs.View.{files_of};
ghost use Rattle.include_expansion.specs.FileEdges.{places_of, AreEdges};

use php_syntax::tree::FileTree;
use program_files::{ScriptFiles, find_includes};
use std::alloc::Global;
use strong_components::Targets;
use text_base::{Bytes, NoMemory};

/// For each file, by its place, the places of those that it includes.
pub(crate) fn edges_of(alloc: Global, files: &ScriptFiles) -> Result<Vec<Targets>, NoMemory>
    ensures { IfOk result (λ edges. AreEdges (files_of files.now) edges.items) }
{
    let mut edges = Vec::new(alloc);
    for place in 0..files.len() {
        match files.tree(place) {
            Some(tree) => {
                let targets = targets_of(alloc, files, tree)?;
                edges.push(targets)?;
            }
            None => unreachable!(),
        }
    }
    Ok(edges)
}

// The places of the files that a tree includes.
fn targets_of(alloc: Global, files: &ScriptFiles, tree: &FileTree) -> Result<Targets, NoMemory>
    ensures { IfOk result
        (λ targets. targets.items
        ≡ places_of (files_of files.now) (includes_of_file (plain_file tree.now))) }
{
    let mut paths = Vec::new(alloc);
    find_includes(alloc, tree, &mut paths)?;
    places(alloc, files, paths.as_slice())
}

// The places of the files of these paths.
fn places(alloc: Global, files: &ScriptFiles, paths: &[Bytes]) -> Result<Targets, NoMemory>
    ensures { IfOk result (λ places. places.items ≡ places_of (files_of files.now) paths.now) }
{
    let mut found = Targets::new(alloc);
    for path in paths {
        match files.place_of(path) {
            Some(place) => found.push(place)?,
            None => continue,
        }
    }
    Ok(found)
}
