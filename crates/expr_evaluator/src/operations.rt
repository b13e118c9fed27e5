//! Operations on values, by the signs of the tree.

ghost use Rattle.std.specs.Prelude.{◌≡◌, ◌≢◌, ◌⊎◌, IfOk, IfErr, Ok, Err};
ghost use Rattle.plain_values.specs.Plain.{Plain, array};
ghost use Rattle.plain_values.specs.Paths as paths;
ghost use Rattle.plain_values.specs.Arithmetic.{negation_of};
ghost use Rattle.plain_values.specs.Identity.{identical};
ghost use Rattle.script_meaning.specs.Expressions as spec;
ghost use Rattle.php_values.specs.View.{plain_of, plain_path, plain_step};
ghost use Rattle.expr_evaluator.specs.Frames.{plain_maybe, plain_maybes};
ghost use Rattle.expr_evaluator.specs.Moves.{Tells, TellsFlag};

use crate::frame::Focus;
use php_syntax::tree::{ArithSign, CompareSign, UpdateSign};
use php_values::{Array, Key, Value};
use plain_values::Fault;
use std::alloc::Global;
use text_base::NoMemory;
use value_operations::{
    append_to, compare, decremented, difference, incremented, key_of, less, loose_equal, negated,
    product, remainder, same, sum,
};

/// The end of a run by a fault; want of memory is none.
pub fn failed<'a>(fault: Fault) -> Result<Focus<'a>, NoMemory>
    ensures { IfOk result (λ f. (f ≡ Focus.Fault fault) × (fault ≢ Fault.Memory)) }
{
    match fault {
        Fault::Memory => Err(NoMemory),
        other => Ok(Focus::Fault(other)),
    }
}

#[tactic(auto, unfolding(script_meaning::specs::Expressions::arithmetic))]
fn arithmetic_value(sign: ArithSign, a: &Value, b: &Value) -> Result<Value, Fault>
    ensures ok { IfOk result
        (λ v. spec.arithmetic sign (plain_of a.now) (plain_of b.now) ≡ Ok (plain_of v)) }
    ensures err { IfErr result
        (λ fault. spec.arithmetic sign (plain_of a.now) (plain_of b.now) ≡ Err fault) }
{
    match sign {
        ArithSign::Add => sum(a, b),
        ArithSign::Sub => difference(a, b),
        ArithSign::Mul => product(a, b),
        ArithSign::Rem => remainder(a, b),
    }
}

/// `+ - * %`
pub fn arithmetic<'a>(sign: ArithSign, a: &Value, b: &Value) -> Result<Focus<'a>, NoMemory>
    ensures { IfOk result (λ f. Tells f (spec.arithmetic sign (plain_of a.now) (plain_of b.now))) }
{
    match arithmetic_value(sign, a, b) {
        Ok(value) => Ok(Focus::Value(value)),
        Err(fault) => failed(fault),
    }
}

// Whether two values are identical.
fn is_same(a: &Value, b: &Value) -> bool
    ensures { result ≡ identical (plain_of a.now) (plain_of b.now) }
{
    same(a, b)
}

#[tactic(auto, unfolding(script_meaning::specs::Expressions::comparison))]
fn comparison_answer(alloc: Global, sign: CompareSign, a: &Value, b: &Value) -> Result<bool, Fault>
    ensures ok { IfOk result
        (λ answer. spec.comparison sign (plain_of a.now) (plain_of b.now) ≡ Ok answer) }
    ensures err { IfErr result (λ fault. (fault ≡ Fault.Memory)
        ⊎ (spec.comparison sign (plain_of a.now) (plain_of b.now) ≡ Err fault)) }
{
    match sign {
        CompareSign::Equal => loose_equal(alloc, a, b),
        CompareSign::NotEqual => Ok(!loose_equal(alloc, a, b)?),
        CompareSign::Identical => Ok(is_same(a, b)),
        CompareSign::NotIdentical => Ok(!is_same(a, b)),
        CompareSign::Less => less(alloc, a, b),
        CompareSign::LessEqual => Ok(compare(alloc, a, b)?.is_le()),
        CompareSign::Greater => Ok(compare(alloc, a, b)?.is_gt()),
        CompareSign::GreaterEqual => Ok(compare(alloc, a, b)?.is_ge()),
    }
}

/// `== != === !== < <= > >=`
pub fn comparison<'a>(
    alloc: Global,
    sign: CompareSign,
    a: &Value,
    b: &Value,
) -> Result<Focus<'a>, NoMemory>
    ensures { IfOk result
        (λ f. TellsFlag f (spec.comparison sign (plain_of a.now) (plain_of b.now))) }
{
    match comparison_answer(alloc, sign, a, b) {
        Ok(answer) => Ok(Focus::Value(Value::Flag(answer))),
        Err(fault) => failed(fault),
    }
}

/// `-a`
pub fn negation<'a>(a: &Value) -> Result<Focus<'a>, NoMemory>
    ensures { IfOk result (λ f. Tells f (negation_of (plain_of a.now))) }
{
    match negated(a) {
        Ok(value) => Ok(Focus::Value(value)),
        Err(fault) => failed(fault),
    }
}

fn member_value(alloc: Global, container: &Value, subscript: &Value) -> Result<Value, Fault>
    ensures ok { IfOk result
        (λ v. paths.subscript_of (plain_of container.now) (plain_of subscript.now)
        ≡ Ok (plain_of v)) }
    ensures err { IfErr result (λ fault. (fault ≡ Fault.Memory)
        ⊎ (paths.subscript_of (plain_of container.now) (plain_of subscript.now) ≡ Err fault)) }
{
    let key = key_of(alloc, subscript)?;
    container.get(&key)
}

/// `a[k]`
pub fn member<'a>(
    alloc: Global,
    container: &Value,
    subscript: &Value,
) -> Result<Focus<'a>, NoMemory>
    ensures { IfOk result
        (λ f. Tells f (paths.subscript_of (plain_of container.now) (plain_of subscript.now))) }
{
    match member_value(alloc, container, subscript) {
        Ok(value) => Ok(Focus::Value(value)),
        Err(fault) => failed(fault),
    }
}

/// An array with one more item of a literal, at its key or behind the others.
pub fn with_item(
    alloc: Global,
    mut made: Array,
    key: &Option<Value>,
    new: Value,
) -> Result<Array, Fault>
    ensures ok { IfOk result
        (λ a. paths.add_item (array made) (plain_maybe key.now) (plain_of new) ≡ Ok (array a)) }
    ensures err { IfErr result (λ fault. (fault ≡ Fault.Memory)
        ⊎ (paths.add_item (array made) (plain_maybe key.now) (plain_of new) ≡ Err fault)) }
{
    match key {
        None => made.push(new)?,
        Some(subscript) => {
            let key = key_of(alloc, subscript)?;
            made.put(key, new)?;
        }
    }
    Ok(made)
}

/// `++` and `--`
#[tactic(auto, unfolding(script_meaning::specs::Expressions::stepped))]
pub fn stepped(up: bool, old: &Value) -> Result<Value, Fault>
    ensures ok { IfOk result (λ v. spec.stepped up (plain_of old.now) ≡ Ok (plain_of v)) }
    ensures err { IfErr result (λ fault. spec.stepped up (plain_of old.now) ≡ Err fault) }
{
    if up {
        incremented(old)
    } else {
        decremented(old)
    }
}

/// What an assignment that reads its target first makes of the old value and the right side.
#[tactic(auto, unfolding(script_meaning::specs::Expressions::updated))]
pub fn updated(alloc: Global, sign: UpdateSign, old: Value, right: Value) -> Result<Value, Fault>
    ensures ok { IfOk result
        (λ v. spec.updated sign (plain_of old) (plain_of right) ≡ Ok (plain_of v)) }
    ensures err { IfErr result (λ fault. (fault ≡ Fault.Memory)
        ⊎ (spec.updated sign (plain_of old) (plain_of right) ≡ Err fault)) }
{
    match sign {
        UpdateSign::Join => append_to(alloc, old, &right),
        UpdateSign::Add => sum(&old, &right),
        UpdateSign::Sub => difference(&old, &right),
        UpdateSign::Mul => product(&old, &right),
        UpdateSign::Rem => remainder(&old, &right),
        UpdateSign::Coalesce => Ok(right),
    }
}

// The step that a subscript is.
fn step_of(alloc: Global, subscript: &Option<Value>) -> Result<Option<Key>, Fault>
    ensures ok { IfOk result (λ s. paths.step_of (plain_maybe subscript.now) ≡ Ok (plain_step s)) }
    ensures err { IfErr result
        (λ fault. (fault ≡ Fault.Memory) ⊎ (paths.step_of (plain_maybe subscript.now) ≡ Err fault)) }
{
    match subscript {
        None => Ok(None),
        Some(value) => Ok(Some(key_of(alloc, value)?)),
    }
}

/// The path that subscripts are. Faults at the first that is no key.
pub fn path_of(alloc: Global, subscripts: &[Option<Value>]) -> Result<Vec<Option<Key>>, Fault>
    ensures ok { IfOk result
        (λ p. paths.path_of (plain_maybes subscripts.now) ≡ Ok (plain_path p.items)) }
    ensures err { IfErr result
        (λ fault. (fault ≡ Fault.Memory)
        ⊎ (paths.path_of (plain_maybes subscripts.now) ≡ Err fault)) }
{
    let mut path = Vec::new(alloc);
    let mut rest = subscripts;
    while let Some((subscript, others)) = rest.split_first() {
        let step = step_of(alloc, subscript)?;
        path.push(step)?;
        rest = others;
    }
    Ok(path)
}
