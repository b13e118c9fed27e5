//! The order of files.

ghost use Rattle.std.specs.Prelude.{◌≡◌, ◌⊎◌, ◌<◌, length, IfOk, IfErr, Some, slice_get};
ghost use Rattle.program_rules.specs.Programs.{ReadFile};
ghost use Rattle.program_files.specs.declared.refusal.LoadRefusal.TheVariants.{IncludeCycle, Memory};
ghost use Rattle.program_files.specs.View.{files_of};
ghost use Rattle.include_expansion.specs.FileOrder.{AreWhole, IsFileOrder, IsOrderCause};

use crate::edges::edges_of;
use program_files::{LoadRefusal, ScriptFiles};
use std::alloc::Global;
use strong_components::{OrderRefusal, order_of};

/// The places of all files, from 0, each behind those of the files that it includes, directly or
/// through others. Takes time linear in the files, and calls itself as deep as files include one
/// another.
///
/// # Errors
///
/// `IncludeCycle` with the name of a file that includes itself, directly or through others, and
/// `Memory`.
pub fn order_files(alloc: Global, files: &ScriptFiles) -> Result<Vec<usize>, LoadRefusal>
    requires { AreWhole (files_of files.now) }
    ensures order { IfOk result (λ places. IsFileOrder (files_of files.now) places.items) }
    ensures err { IfErr result (IsOrderCause (files_of files.now)) }
{
    let edges = edges_of(alloc, files)?;
    match order_of(alloc, edges.as_slice()) {
        Ok(places) => Ok(places),
        Err(OrderRefusal::Cycle(place)) => Err(cycle_at(alloc, files, place)),
        Err(OrderRefusal::Memory) => Err(LoadRefusal::Memory),
    }
}

// That the file at this place includes itself.
fn cycle_at(alloc: Global, files: &ScriptFiles, place: usize) -> LoadRefusal
    requires { place < length (files_of files.now) }
    ensures { (result ≡ Memory)
        ⊎ ((file : ReadFile) × (slice_get (files_of files.now) place ≡ Some file)
        × (result ≡ IncludeCycle file.name)) }
{
    match files.name(place) {
        Some(name) => match name.copy(alloc) {
            Ok(name) => LoadRefusal::IncludeCycle { name },
            Err(_) => LoadRefusal::Memory,
        },
        None => unreachable!(),
    }
}
