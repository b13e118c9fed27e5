//! What is known of the bytes behind each state.

ghost use Rattle.std.specs.Prelude.{◌≡◌, ◌+◌, ◌<◌, ◌⊎◌, ℕ, IfSome, IfNone, OnOk, Some, slice_get, vec_len};
ghost use Rattle.page_lexer.specs.Numbered.{IsKnown, IsNew, KeepsKnown, SetsStep};
ghost use Rattle.page_lexer.specs.declared.rows.NumberedStep as steps;

use byte_readers::Emit;
use text_base::NoMemory;

/// The number of a state, from 0 on in the order in which states are met: 0 is the one before a
/// text.
#[derive(Clone, Copy, Debug, PartialEq, Eq, PartialOrd, Ord, Hash)]
pub struct StateNumber(pub usize);

/// Where a byte leads, and what is put out at it.
#[derive(Clone, Copy, Debug, PartialEq, Eq, Hash)]
pub struct NumberedStep {
    pub to: StateNumber,
    pub emit: Emit,
}

/// The steps from one state that are known, one for each byte.
#[derive(Clone, Copy, Debug)]
pub struct Row {
    pub steps: [Option<NumberedStep>; 256],
}

/// The step that is known of a byte behind the state with a number.
pub fn known_step(rows: &[Row], state: StateNumber, byte: u8) -> Option<NumberedStep>
    ensures some { IfSome result (IsKnown rows.now state.0 byte) }
    ensures none { IfNone result (IsNew rows.now state.0 byte) }
{
    let row = rows.get(state.0)?;
    row.steps[usize::from(byte)]
}

/// A row of which nothing is known.
fn empty_row() -> Row
    ensures { (b : ℕ) (s : steps.NumberedStep) → slice_get result.steps b ≡ Some (Some s) → ⊥ }
{
    Row { steps: [None; 256] }
}

/// Puts a row of which nothing is known behind the others.
fn push_empty(rows: &mut Vec<Row>) -> Result<(), NoMemory>
    ensures keeps { KeepsKnown rows.old.items rows.new.items }
    ensures len { OnOk result (vec_len rows.new ≡ vec_len rows.old + 1) }
    ensures known { (n b : ℕ) (s : steps.NumberedStep) → IsKnown rows.new.items n b s
        → IsKnown rows.old.items n b s }
{
    rows.push(empty_row())?;
    Ok(())
}

/// Rows of which nothing is known, up to that of the state with a number.
fn reach(rows: &mut Vec<Row>, state: StateNumber) -> Result<(), NoMemory>
    ensures known { (n b : ℕ) (s : steps.NumberedStep) → IsKnown rows.new.items n b s
        → IsKnown rows.old.items n b s }
    ensures keeps { KeepsKnown rows.old.items rows.new.items }
    ensures long { OnOk result (state.0 < vec_len rows.new) }
{
    while rows.len() <= state.0 {
        push_empty(rows)?;
    }
    Ok(())
}

/// Sets the step of a byte in a row.
fn set_in(row: &mut Row, byte: u8, step: NumberedStep)
    ensures { SetsStep row.old row.new byte step }
{
    row.steps[usize::from(byte)] = Some(step);
}

/// Sets a step in the row of a state.
fn set_step(rows: &mut Vec<Row>, state: StateNumber, byte: u8, step: NumberedStep)
    requires within { state.0 < vec_len rows.old }
    requires new { IsNew rows.old.items state.0 byte }
    ensures keeps { KeepsKnown rows.old.items rows.new.items }
    ensures noted { IsKnown rows.new.items state.0 byte step }
    ensures only { (n b : ℕ) (s : steps.NumberedStep) → IsKnown rows.new.items n b s
        → IsKnown rows.old.items n b s ⊎ ((n ≡ state.0) × (b ≡ byte) × (s ≡ step)) }
{
    set_in(&mut rows[state.0], byte, step);
}

/// Notes the step from the state with a number by a byte.
pub fn note_step(
    rows: &mut Vec<Row>,
    state: StateNumber,
    byte: u8,
    step: NumberedStep,
) -> Result<(), NoMemory>
    requires { IsNew rows.old.items state.0 byte }
    ensures keeps { KeepsKnown rows.old.items rows.new.items }
    ensures noted { OnOk result (IsKnown rows.new.items state.0 byte step) }
    ensures only { (n b : ℕ) (s : steps.NumberedStep) → IsKnown rows.new.items n b s
        → IsKnown rows.old.items n b s ⊎ ((n ≡ state.0) × (b ≡ byte) × (s ≡ step)) }
{
    reach(rows, state)?;
    set_step(rows, state, byte, step);
    Ok(())
}
