//! Closing the last group of the path.

ghost use Rattle.std.specs.Prelude.{◌≡◌, ◌≤◌, ◌<◌, ℕ, slice_get, take, OnOk, length, Some};
ghost use Rattle.strong_components.specs.Search.{Closes};
ghost use Rattle.strong_components.specs.Opening.{Shuts};

use crate::marks::Mark;
use crate::search::Search;
use text_base::NoMemory;

/// Takes all nodes from a place on off the path, and gives them this number.
fn close_path(marks: &mut Vec<Mark>, path: &mut Vec<usize>, start: usize, number: usize)
    requires start { start ≤ length path.old.items }
    requires within { (p u : ℕ) → slice_get path.old.items p ≡ Some u → u < length marks.old.items }
    ensures marks { Closes marks.old.items path.old.items start number marks.new.items }
    ensures path { path.new.items ≡ take start path.old.items }
{
    while path.len() > start {
        if let Some(node) = path.pop() {
            marks[node] = Mark::Done(number);
        }
    }
}

/// Closes the group of the path that begins at its place, the last one: it is a component.
pub fn close(search: &mut Search, start: usize) -> Result<(), NoMemory>
    requires start { start < length search.old.path.items }
    requires within { (p u : ℕ) → slice_get search.old.path.items p ≡ Some u
        → u < length search.old.marks.items }
    requires last { slice_get search.old.starts 0 ≡ Some start }
    ensures { OnOk result (Shuts start search.old search.new) }
{
    let number = search.roots.len();
    let root = search.path[start];
    search.roots.push(root)?;
    close_path(&mut search.marks, &mut search.path, start, number);
    let _start = search.starts.pop();
    Ok(())
}
