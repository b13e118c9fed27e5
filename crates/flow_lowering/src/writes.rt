//! The ends of assignments.

ghost use Rattle.std.specs.Prelude.{◌≡◌, ◌+◌, ◌<◌, true, false, [], ◌∷◌, length, map, IfOk, OnOk};
ghost use Rattle.flow_code.specs.declared.source.Work.TheVariants as work;
ghost use Rattle.flow_code.specs.Points.{copy_source, number_source, set_point};
ghost use Rattle.flow_code.specs.View.{plain_source, plain_maybe_key};
ghost use Rattle.flow_code.specs.Expressions.{written, updating, member_at, members_along, step_code, step_work};
ghost use Rattle.flow_lowering.specs.View.{progress};
ghost use Rattle.flow_lowering.specs.Emits.{Puts, Sets, Closes, Emits, place};

use crate::PointBuilder;
use crate::values::{copy_key, one_slot, two_slots};
use flow_code::{FlowPoint, KeyRef, Source, Work};
use php_syntax::tree::{ArithSign, UpdateSign};
use php_values::Value;
use std::alloc::Global;
use text_base::{NoMemory, Slot};

/// What a variable is set to where a value is written whole, or at the end of a path.
pub fn written_source(variable: Slot, path: Vec<Option<KeyRef>>, value: Slot) -> Source
    ensures { plain_source result ≡ written variable.0 (map plain_maybe_key path.items) value.0 }
{
    if path.is_empty() {
        Source::Copy(value)
    } else {
        Source::PutIn(variable, path, value)
    }
}

// A variable is set.
fn set_variable(variable: Slot, source: Source, points: &mut PointBuilder) -> Result<(), NoMemory>
    ensures { OnOk result (Puts (progress points.old) (progress points.new)
        (set_point variable.0 (plain_source source) (place (progress points.old) + 1) ∷ []) 0) }
{
    let next = points.ahead(1);
    points.push(FlowPoint::Set {
        slot: variable,
        source,
        next,
    })
}

/// A value is written into a variable.
pub fn write(
    variable: Slot,
    path: Vec<Option<KeyRef>>,
    value: Slot,
    points: &mut PointBuilder,
) -> Result<(), NoMemory>
    ensures { OnOk result (Puts (progress points.old) (progress points.new)
        (set_point variable.0 (written variable.0 (map plain_maybe_key path.items) value.0)
        (place (progress points.old) + 1) ∷ []) 0) }
{
    set_variable(variable, written_source(variable, path, value), points)
}

/// What the member under a key is set to, where `[]` has none.
fn member_source(alloc: Global, base: Slot, key: &Option<KeyRef>) -> Result<Source, NoMemory>
    ensures { IfOk result
        (λ source. plain_source source ≡ member_at base.0 (plain_maybe_key key.now)) }
{
    match key {
        None => Ok(Source::Lit(Value::Null)),
        Some(key) => {
            let key = copy_key(alloc, key)?;
            Ok(Source::MemberOf(base, key))
        }
    }
}

/// The members along a path, each in a slot of its own; the last of them.
pub fn lower_members(
    alloc: Global,
    base: Slot,
    path: &[Option<KeyRef>],
    points: &mut PointBuilder,
) -> Result<Slot, NoMemory>
    requires { base.0 + 1 ≡ (progress points.old).slot }
    ensures puts { OnOk result (Puts (progress points.old) (progress points.new)
        (members_along base.0 (map plain_maybe_key path.now) (place (progress points.old))
        (progress points.old).slot) (length path.now)) }
    ensures slot { IfOk result (λ slot. slot.0 + 1 ≡ (progress points.new).slot) }
{
    let mut member = base;
    for key in path {
        let source = member_source(alloc, member, key)?;
        member = points.compute(source)?;
    }
    Ok(member)
}

/// What an assignment that reads its target sets it to, by the old value and the right side.
#[tactic(auto, unfolding(flow_code::specs::Expressions::updating))]
pub fn updating_source(
    alloc: Global,
    sign: UpdateSign,
    old: Slot,
    right: Slot,
) -> Result<Source, NoMemory>
    ensures { IfOk result (λ source. plain_source source ≡ updating sign old.0 right.0) }
{
    match sign {
        UpdateSign::Join => {
            let args = two_slots(alloc, old, right)?;
            Ok(Source::Concat(args))
        }
        UpdateSign::Coalesce => Ok(Source::Copy(right)),
        UpdateSign::Add => arithmetic(alloc, ArithSign::Add, old, right),
        UpdateSign::Sub => arithmetic(alloc, ArithSign::Sub, old, right),
        UpdateSign::Mul => arithmetic(alloc, ArithSign::Mul, old, right),
        UpdateSign::Rem => arithmetic(alloc, ArithSign::Rem, old, right),
    }
}

// An arithmetic operation on the old value and the right side.
fn arithmetic(alloc: Global, sign: ArithSign, old: Slot, right: Slot) -> Result<Source, NoMemory>
    ensures { IfOk result
        (λ source. plain_source source ≡ number_source (work.Arith sign) (old.0 ∷ right.0 ∷ [])) }
{
    let args = two_slots(alloc, old, right)?;
    let work = Work::Arith(sign);
    Ok(Source::Number { work, args })
}

/// The end of `.=` and its like: the new value, and its write.
#[tactic(auto, using(crate::proofs::EmitLemmas::puts_then))]
pub fn finish_updated(
    alloc: Global,
    sign: UpdateSign,
    variable: Slot,
    path: Vec<Option<KeyRef>>,
    old: Slot,
    right: Slot,
    points: &mut PointBuilder,
) -> Result<Slot, NoMemory>
    ensures slot { IfOk result (λ slot. slot.0 ≡ (progress points.old).slot) }
    ensures puts { OnOk result (Puts (progress points.old) (progress points.new)
        (set_point (progress points.old).slot (updating sign old.0 right.0)
        (place (progress points.old) + 1)
        ∷ set_point variable.0
        (written variable.0 (map plain_maybe_key path.items) (progress points.old).slot)
        (place (progress points.old) + 2) ∷ []) 1) }
{
    let source = updating_source(alloc, sign, old, right)?;
    let slot = points.compute(source)?;
    write(variable, path, slot, points)?;
    Ok(slot)
}

// What `++` and `--` set a variable to.
fn step_source(alloc: Global, variable: Slot, up: bool) -> Result<Source, NoMemory>
    ensures { IfOk result
        (λ source. plain_source source ≡ number_source (step_work up) (variable.0 ∷ [])) }
{
    let args = one_slot(alloc, variable)?;
    if up {
        let work = Work::Up;
        Ok(Source::Number { work, args })
    } else {
        let work = Work::Down;
        Ok(Source::Number { work, args })
    }
}

/// `++$x` and `--$x`.
pub fn lower_step_before(
    alloc: Global,
    variable: Slot,
    up: bool,
    points: &mut PointBuilder,
) -> Result<Slot, NoMemory>
    ensures { IfOk result
        (λ slot. Emits (progress points.old) (progress points.new) (step_code variable.0 up true)
        slot.0) }
{
    let source = step_source(alloc, variable, up)?;
    set_variable(variable, source, points)?;
    let copy = points.compute(Source::Copy(variable))?;
    Ok(copy)
}

/// `$x++` and `$x--`.
pub fn lower_step_after(
    alloc: Global,
    variable: Slot,
    up: bool,
    points: &mut PointBuilder,
) -> Result<Slot, NoMemory>
    ensures { IfOk result
        (λ slot. Emits (progress points.old) (progress points.new) (step_code variable.0 up false)
        slot.0) }
{
    let source = step_source(alloc, variable, up)?;
    let copy = points.compute(Source::Copy(variable))?;
    set_variable(variable, source, points)?;
    Ok(copy)
}

/// The end of `??=`: the right side is copied and written, and where the reserved point stands the
/// old value is copied.
#[tactic(auto, using(crate::proofs::BranchLemmas::closes_of, crate::proofs::EmitLemmas::puts_then))]
pub fn finish_filled(
    copy: usize,
    variable: Slot,
    path: Vec<Option<KeyRef>>,
    old: Slot,
    right: Slot,
    points: &mut PointBuilder,
) -> Result<Slot, NoMemory>
    requires { copy < length (progress points.old).points }
    ensures slot { IfOk result (λ slot. slot.0 ≡ (progress points.old).slot) }
    ensures closes { OnOk result
        (Closes (progress points.old) (progress points.new) copy
        (set_point (progress points.old).slot (copy_source old.0) (place (progress points.old) + 2))
        (set_point (progress points.old).slot (copy_source right.0)
        (place (progress points.old) + 1)
        ∷ set_point variable.0
        (written variable.0 (map plain_maybe_key path.items) (progress points.old).slot)
        (place (progress points.old) + 2) ∷ []) 1) }
{
    let next = points.ahead(2);
    let slot = points.compute(Source::Copy(right))?;
    write(variable, path, slot, points)?;
    let source = Source::Copy(old);
    points.replace(copy, FlowPoint::Set { slot, source, next });
    Ok(slot)
}
