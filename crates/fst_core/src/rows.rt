//! How a table is built: state by state, and in a state byte by byte.

ghost use Rattle.std.specs.Prelude.{◌≡◌, ◌∷◌, [], ◌++◌, ◌<◌, ◌≤◌, length, slice_get, All, IfOk, OnOk, OnErr, IsTrue};
ghost use Rattle.std.specs.List.{list_all};
ghost use Rattle.std.specs.Option.{option_copied};
ghost use Rattle.fst_core.specs.Fits.{is_fixed};
ghost use Rattle.fst_core.specs.Choices.{AddsChoice, AddsRow, FitsChoice, FitsRow};

use crate::moves::{Action, TableEnd, TableMove};
use crate::table::Table;
use std::alloc::Global;
use text_base::{ByteRange, NoMemory};

impl Table {
    /// A table with these states and no move and no end.
    pub fn new(alloc: Global, states: u64, start: u64) -> Table
        requires { start < states }
        ensures states { result.states ≡ states }
        ensures start { result.start ≡ start }
        ensures moves { result.moves.items ≡ [] }
        ensures ends { result.ends.items ≡ [] }
    {
        Table {
            states,
            start,
            moves: Vec::new(alloc),
            ends: Vec::new(alloc),
        }
    }

    /// Adds a move.
    pub fn add_move(&mut self, step: TableMove) -> Result<(), NoMemory>
        requires from { step.from < self.old.states }
        requires to { step.to < self.old.states }
        ensures moves { OnOk result (self.new.moves.items ≡ self.old.moves.items ++ step ∷ []) }
        ensures kept { OnErr result (self.new.moves.items ≡ self.old.moves.items) }
        ensures states { self.new.states ≡ self.old.states }
        ensures start { self.new.start ≡ self.old.start }
        ensures ends { self.new.ends.items ≡ self.old.ends.items }
    {
        self.moves.push(step)?;
        Ok(())
    }

    /// Adds an end.
    pub fn add_end(&mut self, end: TableEnd) -> Result<(), NoMemory>
        requires state { end.state < self.old.states }
        requires fixed { IsTrue (list_all is_fixed end.out.items) }
        ensures ends { OnOk result (self.new.ends.items ≡ self.old.ends.items ++ end ∷ []) }
        ensures kept { OnErr result (self.new.ends.items ≡ self.old.ends.items) }
        ensures states { self.new.states ≡ self.old.states }
        ensures start { self.new.start ≡ self.old.start }
        ensures moves { self.new.moves.items ≡ self.old.moves.items }
    {
        self.ends.push(end)?;
        Ok(())
    }

    /// Adds moves by which a state takes each byte to the action that `named` gives for it, as a
    /// place in `actions`, and has no move by a byte whose place is past them. Neighbouring bytes
    /// with the same place share a move.
    pub fn add_row(
        &mut self,
        alloc: Global,
        from: u64,
        named: &[usize],
        actions: &[Action],
    ) -> Result<(), NoMemory>
        requires from { from < self.old.states }
        requires bytes { length named.now ≡ 256 }
        requires to { All (λ a. a.to < self.old.states) actions.now }
        ensures moves { OnOk result
            (AddsRow self.old.moves.items self.new.moves.items from named.now actions.now) }
        ensures kept { OnErr result (self.new.moves.items ≡ self.old.moves.items) }
        ensures states { self.new.states ≡ self.old.states }
        ensures start { self.new.start ≡ self.old.start }
        ensures ends { self.new.ends.items ≡ self.old.ends.items }
    {
        let mut row = row_moves(alloc, from, named, actions)?;
        self.moves.append(&mut row)?;
        Ok(())
    }
}

/// The moves by which a state takes each byte to the action that is named for it.
fn row_moves(
    alloc: Global,
    from: u64,
    named: &[usize],
    actions: &[Action],
) -> Result<Vec<TableMove>, NoMemory>
    requires { length named.now ≡ 256 }
    ensures row { IfOk result (λ moves. AddsRow [] moves.items from named.now actions.now) }
    ensures fits { IfOk result (λ moves. FitsRow moves.items from actions.now) }
{
    let mut moves = Vec::new(alloc);
    let mut lo = 0;
    for hi in 0..256usize {
        let place = named[hi];
        if hi == 255 || named[hi + 1] != place {
            let action = action_at(actions, place);
            push_choice(alloc, &mut moves, from, lo as u8, hi as u8, action)?;
            lo = hi + 1;
        }
    }
    Ok(moves)
}

/// Puts in the move by which each byte from `lo` to `hi` takes a state to an action; none where
/// there is no action.
fn push_choice(
    alloc: Global,
    moves: &mut Vec<TableMove>,
    from: u64,
    lo: u8,
    hi: u8,
    action: Option<&Action>,
) -> Result<(), NoMemory>
    requires { lo ≤ hi }
    ensures choice { OnOk result
        (AddsChoice moves.old.items moves.new.items from lo hi (option_copied action.entry)) }
    ensures fits { OnOk result
        (FitsChoice moves.old.items moves.new.items from (option_copied action.entry)) }
{
    let Some(action) = action else {
        return Ok(());
    };
    let out = Vec::from_slice(alloc, action.out.as_slice())?;
    moves.push(TableMove {
        from,
        range: ByteRange { lo, hi },
        out,
        to: action.to,
    })?;
    Ok(())
}

/// The action at a place, if there is one.
fn action_at(actions: &[Action], place: usize) -> Option<&Action>
    ensures { option_copied result ≡ slice_get actions.now place }
{
    actions.get(place)
}
