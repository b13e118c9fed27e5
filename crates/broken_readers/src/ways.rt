//! The ways in which pieces begin that are the loose forms, or the coarse one, as wholes.

ghost use Rattle.std.specs.Prelude.{◌≡◌, ◌∷◌, [], IfOk, map};
ghost use Rattle.coarse_forms.specs.CoarseForms.{coarse_form};
ghost use Rattle.derivatives.specs.Standing.{expr_at};
ghost use Rattle.dtd_model.specs.TableOf.{table_of};
ghost use Rattle.way_reader.specs.Reader.{starts_at};
ghost use Rattle.broken_readers.specs.Starts as spec;

use crate::coarse::coarse;
use crate::loose::loose;
use crate::starting::{
    AT_BEGINNING, BEHIND_MARK, BEHIND_NONE, BEHIND_ONE, BEHIND_TWO, COARSE, silent_ways,
};
use dtd_model::Dtd;
use form_maker::{Made, Maker};
use std::alloc::Global;
use text_base::NoMemory;
use way_reader::{PieceWays, Starts};

/// The starts of the loose forms.
fn loose_starts(alloc: Global, numbers: &[usize]) -> Result<Starts, NoMemory>
    ensures { IfOk result
        (λ starts. spec.AreSilent numbers.now starts AT_BEGINNING BEHIND_MARK BEHIND_NONE BEHIND_ONE
        BEHIND_TWO) }
{
    Ok(Starts {
        beginning: silent_ways(alloc, numbers, &AT_BEGINNING)?,
        behind_mark: silent_ways(alloc, numbers, &BEHIND_MARK)?,
        behind: silent_ways(alloc, numbers, &BEHIND_NONE)?,
        behind_one: silent_ways(alloc, numbers, &BEHIND_ONE)?,
        behind_two: silent_ways(alloc, numbers, &BEHIND_TWO)?,
    })
}

/// The starts of the coarse form.
fn coarse_starts(alloc: Global, numbers: &[usize]) -> Result<Starts, NoMemory>
    ensures { IfOk result
        (λ starts. spec.AreSilent numbers.now starts COARSE COARSE COARSE COARSE COARSE) }
{
    Ok(Starts {
        beginning: silent_ways(alloc, numbers, &COARSE)?,
        behind_mark: silent_ways(alloc, numbers, &COARSE)?,
        behind: silent_ways(alloc, numbers, &COARSE)?,
        behind_one: silent_ways(alloc, numbers, &COARSE)?,
        behind_two: silent_ways(alloc, numbers, &COARSE)?,
    })
}

/// The ways in which the loose pieces of a definition begin.
pub fn loose_ways(alloc: Global, dtd: &Dtd) -> Result<PieceWays, NoMemory>
    ensures { IfOk result
        (λ ways. spec.AreLooseWays (table_of dtd.now) ways.arena (starts_at ways.starts)) }
{
    let Made { arena, numbers } = loose(alloc, dtd)?;
    let starts = loose_starts(alloc, numbers.as_slice())?;
    Ok(PieceWays { arena, starts })
}

/// The coarse form alone.
fn made_coarse(alloc: Global) -> Result<Made, NoMemory>
    ensures { IfOk result
        (λ made. map (expr_at made.arena) made.numbers.items ≡ coarse_form ∷ []) }
{
    let mut maker = Maker::new(alloc);
    coarse(&mut maker)?;
    maker.keep()?;
    Ok(maker.finish())
}

/// The ways in which coarse pieces begin.
pub fn coarse_ways(alloc: Global) -> Result<PieceWays, NoMemory>
    ensures { IfOk result (λ ways. spec.AreCoarseWays ways.arena (starts_at ways.starts)) }
{
    let Made { arena, numbers } = made_coarse(alloc)?;
    let starts = coarse_starts(alloc, numbers.as_slice())?;
    Ok(PieceWays { arena, starts })
}
