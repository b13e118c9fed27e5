//! Values that stand in the script, slots in a row, and operations on them.

ghost use Rattle.std.specs.Prelude.{◌≡◌, ◌+◌, ◌≤◌, [], ◌∷◌, length, map, IfOk};
ghost use Rattle.text_base.specs.declared.limits.TheConstants.{TEXT_LIMIT};
ghost use Rattle.plain_values.specs.Plain.{text};
ghost use Rattle.php_values.specs.View.{plain_of};
ghost use Rattle.flow_code.specs.Points.{literal_source};
ghost use Rattle.flow_code.specs.View.{plain_source, plain_key_ref, plain_maybe_key, slot_number};
ghost use Rattle.flow_code.specs.Code.{from_source};
ghost use Rattle.flow_code.specs.Expressions.{literal};
ghost use Rattle.flow_lowering.specs.View.{progress};
ghost use Rattle.flow_lowering.specs.Emits.{Emits, Sets, place};
ghost use Rattle.flow_lowering.specs.Forms.{source_for};

use crate::PointBuilder;
use flow_code::{KeyRef, Source, Work};
use php_values::{Text, Value};
use std::alloc::Global;
use text_base::{Bytes, NoMemory, Slot};

/// A slot in a row of its own.
pub fn one_slot(alloc: Global, first: Slot) -> Result<Vec<Slot>, NoMemory>
    ensures { IfOk result (λ slots. map slot_number slots.items ≡ first.0 ∷ []) }
{
    let mut slots = Vec::new(alloc);
    slots.push(first)?;
    Ok(slots)
}

/// Two slots in a row.
pub fn two_slots(alloc: Global, first: Slot, second: Slot) -> Result<Vec<Slot>, NoMemory>
    ensures { IfOk result (λ slots. map slot_number slots.items ≡ first.0 ∷ second.0 ∷ []) }
{
    let mut slots = Vec::new(alloc);
    slots.push(first)?;
    slots.push(second)?;
    Ok(slots)
}

/// A text that stands in the script, as a value.
pub fn text_value(alloc: Global, bytes: &Bytes) -> Result<Value, NoMemory>
    requires { length bytes.now ≤ TEXT_LIMIT }
    ensures { IfOk result (λ value. plain_of value ≡ text bytes.now) }
{
    let text = Text::from_short(alloc, bytes.as_slice())?;
    Ok(Value::Text(text))
}

/// A second key like this one.
pub fn copy_key(alloc: Global, key: &KeyRef) -> Result<KeyRef, NoMemory>
    ensures { IfOk result (λ copy. plain_key_ref copy ≡ plain_key_ref key.now) }
{
    match key {
        KeyRef::Int(number) => Ok(KeyRef::Int(*number)),
        KeyRef::Text(text) => {
            let text = text.copy(alloc)?;
            Ok(KeyRef::Text(text))
        }
        KeyRef::Read(slot) => Ok(KeyRef::Read(*slot)),
    }
}

// A second key like this one, if there is one.
fn copy_maybe(alloc: Global, key: &Option<KeyRef>) -> Result<Option<KeyRef>, NoMemory>
    ensures { IfOk result (λ copy. plain_maybe_key copy ≡ plain_maybe_key key.now) }
{
    match key {
        Some(key) => {
            let copy = copy_key(alloc, key)?;
            Ok(Some(copy))
        }
        None => Ok(None),
    }
}

/// A key like this one in a row of its own.
pub fn one_key(alloc: Global, key: &Option<KeyRef>) -> Result<Vec<Option<KeyRef>>, NoMemory>
    ensures { IfOk result
        (λ path. map plain_maybe_key path.items ≡ plain_maybe_key key.now ∷ []) }
{
    let key = copy_maybe(alloc, key)?;
    let mut path = Vec::new(alloc);
    path.push(key)?;
    Ok(path)
}

/// A source that needs nothing before it.
#[tactic(auto, using(crate::proofs::EmitLemmas::emits_source))]
pub fn lower_source(source: Source, points: &mut PointBuilder) -> Result<Slot, NoMemory>
    ensures { IfOk result
        (λ slot. Emits (progress points.old) (progress points.new)
        (from_source (plain_source source)) slot.0) }
{
    points.compute(source)
}

/// A value that stands in the script.
#[tactic(auto, using(crate::proofs::EmitLemmas::emits_source))]
pub fn lower_value(value: Value, points: &mut PointBuilder) -> Result<Slot, NoMemory>
    ensures { IfOk result
        (λ slot. Emits (progress points.old) (progress points.new) (literal (plain_of value))
        slot.0) }
{
    points.compute(Source::Lit(value))
}

/// Whether an operation gives a number or a truth value.
#[derive(Clone, Copy)]
pub enum Gives {
    Number,
    Truth,
}

/// The operation on these slots, as a source.
fn source_of(work: Work, gives: Gives, args: Vec<Slot>) -> Source
    ensures { plain_source result ≡ source_for gives work (map slot_number args.items) }
{
    match gives {
        Gives::Number => Source::Number { work, args },
        Gives::Truth => Source::Truth { work, args },
    }
}

/// An operation on one value.
pub fn operation_on_one(
    alloc: Global,
    work: Work,
    gives: Gives,
    operand: Slot,
    points: &mut PointBuilder,
) -> Result<Slot, NoMemory>
    ensures { IfOk result
        (λ slot. Sets (progress points.old) (progress points.new)
        (source_for gives work (operand.0 ∷ [])) (place (progress points.old) + 1) slot.0) }
{
    let args = one_slot(alloc, operand)?;
    points.compute(source_of(work, gives, args))
}

/// An operation on two values.
pub fn operation_on_two(
    alloc: Global,
    work: Work,
    gives: Gives,
    left: Slot,
    right: Slot,
    points: &mut PointBuilder,
) -> Result<Slot, NoMemory>
    ensures { IfOk result
        (λ slot. Sets (progress points.old) (progress points.new)
        (source_for gives work (left.0 ∷ right.0 ∷ [])) (place (progress points.old) + 1) slot.0) }
{
    let args = two_slots(alloc, left, right)?;
    points.compute(source_of(work, gives, args))
}
