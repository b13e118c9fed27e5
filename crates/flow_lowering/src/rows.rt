//! The ends of array literals and of joins.

ghost use Rattle.std.specs.Prelude.{◌≡◌, ◌+◌, ◌++◌, ℕ, List, [], ◌∷◌, map, IfOk};
ghost use Rattle.plain_values.specs.Plain.{text};
ghost use Rattle.php_syntax.specs.Trees.{exprs_of};
ghost use Rattle.flow_code.specs.Points.{put_source, concat_source};
ghost use Rattle.flow_code.specs.View.{plain_maybe_key, slot_number};
ghost use Rattle.flow_code.specs.Code.{Code, both, computed};
ghost use Rattle.flow_code.specs.Expressions.{literal, no_item, join_code};
ghost use Rattle.flow_lowering.specs.View.{progress};
ghost use Rattle.flow_lowering.specs.Emits.{Progress, Emits, Sets, place};

use crate::PointBuilder;
use crate::values::{lower_value, one_key};
use flow_code::{KeyRef, Source};
use php_syntax::tree::Expr;
use php_values::{Text, Value};
use std::alloc::Global;
use text_base::{NoMemory, Slot};

/// An array without items, which is put together further on.
pub fn empty_array(alloc: Global, points: &mut PointBuilder) -> Result<Slot, NoMemory>
    ensures { IfOk result (λ slot. Emits (progress points.old) (progress points.new) no_item
        (slot.0, [])) }
{
    let none = Vec::new(alloc);
    points.compute(Source::ArrayOf(none))
}

/// An item put behind the others into an array that is put together, in a fresh slot.
pub fn put_item(
    alloc: Global,
    array: Slot,
    key: &Option<KeyRef>,
    value: Slot,
    points: &mut PointBuilder,
) -> Result<Slot, NoMemory>
    ensures { IfOk result (λ slot. Sets (progress points.old) (progress points.new)
        (put_source array.0 (plain_maybe_key key.now ∷ []) value.0)
        (place (progress points.old) + 1) slot.0) }
{
    let path = one_key(alloc, key)?;
    points.compute(Source::PutIn(array, path, value))
}

// A part that stands alone is joined with the empty text.
fn join_alone(
    alloc: Global,
    mut slots: Vec<Slot>,
    points: &mut PointBuilder,
) -> Result<Slot, NoMemory>
    ensures { IfOk result
        (λ slot. (start : Progress) (parts : Code (List ℕ))
        → Emits start (progress points.old) parts (map slot_number slots.items) →
        Emits start (progress points.new)
        (computed (both parts (literal (text [])) (λ (xs : List ℕ) (x : ℕ). xs ++ x ∷ []))
        concat_source) slot.0) }
{
    let empty = Text::from_short(alloc, &[])?;
    let none = lower_value(Value::Text(empty), points)?;
    slots.push(none)?;
    points.compute(Source::Concat(slots))
}

// Parts that are joined as they are.
fn join_all(slots: Vec<Slot>, points: &mut PointBuilder) -> Result<Slot, NoMemory>
    ensures { IfOk result
        (λ slot. (start : Progress) (parts : Code (List ℕ))
        → Emits start (progress points.old) parts (map slot_number slots.items) →
        Emits start (progress points.new) (computed parts concat_source) slot.0) }
{
    points.compute(Source::Concat(slots))
}

/// The end of a join, whose parts have these slots: behind the code of the parts it is the code of
/// the join.
pub fn finish_join(
    alloc: Global,
    parts: &[Expr],
    slots: Vec<Slot>,
    points: &mut PointBuilder,
) -> Result<Slot, NoMemory>
    ensures { IfOk result
        (λ slot. (start : Progress) (all : Code (List ℕ))
        → Emits start (progress points.old) all (map slot_number slots.items) →
        Emits start (progress points.new) (join_code (exprs_of parts.now) all) slot.0) }
{
    if parts.len() == 1 {
        join_alone(alloc, slots, points)
    } else {
        join_all(slots, points)
    }
}
