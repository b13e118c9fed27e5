//! The moves of assignments.

ghost use Rattle.std.specs.Prelude.{◌≡◌, ◌⊎◌, List, IfOk, IfErr, Ok, Err};
ghost use Rattle.php_syntax.specs.Trees.{PlainFunction};
ghost use Rattle.plain_values.specs.Plain.{Plain};
ghost use Rattle.plain_values.specs.Paths as paths;
ghost use Rattle.plain_values.specs.Walks as walks;
ghost use Rattle.php_values.specs.View.{plain_of, plain_path};
ghost use Rattle.script_meaning.specs.Requests.{PlainRequest};
ghost use Rattle.script_meaning.specs.Expressions as spec;
ghost use Rattle.expr_evaluator.specs.Frames.{assign_in, update_in, plain_maybes};
ghost use Rattle.expr_evaluator.specs.Moves as moves;
ghost use Rattle.expr_evaluator.specs.Moves.{Moves, Does, Reads};

use crate::evaluator::Evaluator;
use crate::frame::{Focus, Frame, Writing};
use crate::operations::{failed, path_of, updated};
use php_syntax::tree::{Expr, UpdateSign};
use php_values::{Key, Value};
use plain_values::Fault;
use std::alloc::Global;
use text_base::{Bytes, NoMemory};

// The value of a variable after a write at the end of subscripts.
#[tactic(auto, unfolding(script_meaning::specs::Expressions::assigned))]
fn assigned(
    alloc: Global,
    subscripts: &[Option<Value>],
    new: Value,
    old: Value,
) -> Result<Value, Fault>
    ensures ok { IfOk result
        (λ v. spec.assigned (plain_maybes subscripts.now) (plain_of new) (plain_of old)
        ≡ Ok (plain_of v)) }
    ensures err { IfErr result (λ fault. (fault ≡ Fault.Memory)
        ⊎ (spec.assigned (plain_maybes subscripts.now) (plain_of new) (plain_of old) ≡ Err fault)) }
{
    if subscripts.is_empty() {
        return Ok(new);
    }
    let path = path_of(alloc, subscripts)?;
    let mut whole = old;
    match whole.write(alloc, &path, new) {
        Ok(()) => Ok(whole),
        Err(fault) => Err(fault),
    }
}

/// Writes a value to a variable at the end of subscripts.
pub fn assign<'a>(
    alloc: Global,
    m: &mut Evaluator<'a>,
    name: &'a Bytes,
    subscripts: &[Option<Value>],
    value: Value,
) -> Result<Focus<'a>, NoMemory>
    ensures { IfOk result
        (λ f. Does (assign_in name.now (plain_maybes subscripts.now) (plain_of value)) m.old f
        m.new) }
{
    let new = value.share()?;
    let old = m.variables.take(name)?;
    match assigned(alloc, subscripts, new, old) {
        Ok(whole) => {
            m.variables.set(name, whole)?;
            Ok(Focus::Value(value))
        }
        Err(fault) => {
            let next = failed(fault)?;
            Ok(next)
        }
    }
}

// A variable after a write at the end of a path.
fn written(alloc: Global, path: &[Option<Key>], new: Value, whole: Value) -> Result<Value, Fault>
    ensures ok { IfOk result
        (λ w. moves.written (plain_path path.now) (plain_of new) (plain_of whole) ≡ Ok (plain_of w)) }
    ensures err { IfErr result (λ fault. (fault ≡ Fault.Memory)
        ⊎ (moves.written (plain_path path.now) (plain_of new) (plain_of whole) ≡ Err fault)) }
{
    match path.split_first() {
        None => Ok(new),
        Some(_) => {
            let mut whole = whole;
            match whole.write(alloc, path, new) {
                Ok(()) => Ok(whole),
                Err(fault) => Err(fault),
            }
        }
    }
}

// A variable after a write at the end of a path, and the value that is written. What stands there
// is let go first, so that an old text is appended to in place.
fn rewritten(
    alloc: Global,
    sign: UpdateSign,
    path: &[Option<Key>],
    old: Value,
    right: Value,
    whole: Value,
) -> Result<(Value, Value), Fault>
    ensures ok { IfOk result
        (λ p. (spec.updated sign (plain_of old) (plain_of right) ≡ Ok (plain_of p.0))
        × (moves.written (plain_path path.now) (plain_of p.0) (plain_of whole) ≡ Ok (plain_of p.1))) }
    ensures err { IfErr result
        (λ fault. (fault ≡ Fault.Memory)
        ⊎ (spec.updated sign (plain_of old) (plain_of right) ≡ Err fault)
        ⊎ ((v : Plain) × (spec.updated sign (plain_of old) (plain_of right) ≡ Ok v)
        × (moves.written (plain_path path.now) v (plain_of whole) ≡ Err fault))) }
{
    let mut whole = whole;
    whole.release(path);
    let new = updated(alloc, sign, old, right)?;
    let kept = new.share()?;
    match written(alloc, path, kept, whole) {
        Ok(whole) => Ok((new, whole)),
        Err(fault) => Err(fault),
    }
}

/// Writes what the sign makes of the old value and the right side to a variable at the end of a
/// path.
pub fn update<'a>(
    alloc: Global,
    m: &mut Evaluator<'a>,
    sign: UpdateSign,
    name: &'a Bytes,
    path: &[Option<Key>],
    old: Value,
    right: Value,
) -> Result<Focus<'a>, NoMemory>
    ensures { IfOk result
        (λ f. Does (update_in sign name.now (plain_path path.now) (plain_of old) (plain_of right))
        m.old f m.new) }
{
    let whole = m.variables.take(name)?;
    match rewritten(alloc, sign, path, old, right, whole) {
        Ok((new, whole)) => {
            m.variables.set(name, whole)?;
            Ok(Focus::Value(new))
        }
        Err(fault) => {
            let next = failed(fault)?;
            Ok(next)
        }
    }
}

// The value at the end of a path.
fn value_at(whole: &Value, path: &[Option<Key>]) -> Result<Value, Fault>
    ensures ok { IfOk result
        (λ v. paths.read (plain_path path.now) (plain_of whole.now) ≡ Ok (plain_of v)) }
    ensures err { IfErr result
        (λ fault. (fault ≡ Fault.Memory)
        ⊎ (paths.read (plain_path path.now) (plain_of whole.now) ≡ Err fault)) }
{
    match whole.read(path)? {
        None => Ok(Value::Null),
        Some(value) => Ok(value.share()?),
    }
}

// The path that subscripts are, and the value of a variable at its end.
fn old_value(
    alloc: Global,
    subscripts: &[Option<Value>],
    whole: &Value,
) -> Result<(Vec<Option<Key>>, Value), Fault>
    ensures ok { IfOk result
        (λ p. (paths.path_of (plain_maybes subscripts.now) ≡ Ok (plain_path p.0.items))
        × (paths.read (plain_path p.0.items) (plain_of whole.now) ≡ Ok (plain_of p.1))) }
    ensures err { IfErr result
        (λ fault. (fault ≡ Fault.Memory) ⊎ (paths.path_of (plain_maybes subscripts.now) ≡ Err fault)
        ⊎ ((path : List paths.Step) × (paths.path_of (plain_maybes subscripts.now) ≡ Ok path)
        × (paths.read path (plain_of whole.now) ≡ Err fault))) }
{
    let path = path_of(alloc, subscripts)?;
    let old = value_at(whole, &path)?;
    Ok((path, old))
}

// Whether an assignment that reads its target first leaves it as it is.
#[tactic(auto, unfolding(script_meaning::specs::Expressions::is_kept))]
fn is_kept(sign: UpdateSign, old: &Value) -> bool
    ensures { result ≡ spec.is_kept sign (plain_of old.now) }
{
    match sign {
        UpdateSign::Coalesce => !is_null(old),
        _ => false,
    }
}

/// Whether a value is null.
pub fn is_null(value: &Value) -> bool
    ensures { result ≡ walks.is_null (plain_of value.now) }
{
    match value {
        Value::Null => true,
        Value::Flag(_) | Value::Int(_) | Value::Text(_) | Value::Array(_) => false,
    }
}

// An assignment that reads its target first, behind its subscripts.
fn read_target<'a>(
    alloc: Global,
    m: &mut Evaluator<'a>,
    sign: UpdateSign,
    name: &'a Bytes,
    right: &'a Expr,
    subscripts: &[Option<Value>],
) -> Result<Focus<'a>, NoMemory>
    ensures { IfOk result
        (λ f. Reads (Writing.Update sign name.entry right.entry) (plain_maybes subscripts.now) m.old
        f m.new) }
{
    let whole = m.variables.get(name)?;
    match old_value(alloc, subscripts, &whole) {
        Ok((path, old)) => {
            if is_kept(sign, &old) {
                Ok(Focus::Value(old))
            } else {
                let next = m.open(Frame::Update(sign, name, path, old), right)?;
                Ok(next)
            }
        }
        Err(fault) => {
            let next = failed(fault)?;
            Ok(next)
        }
    }
}

// What goes on behind the subscripts of a target.
fn subscripted<'a>(
    alloc: Global,
    m: &mut Evaluator<'a>,
    writing: Writing<'a>,
    subscripts: Vec<Option<Value>>,
) -> Result<Focus<'a>, NoMemory>
    ensures { IfOk result (λ f. Reads writing.entry (plain_maybes subscripts.items) m.old f m.new) }
{
    match writing {
        Writing::Assign(name, right) => {
            let next = m.open(Frame::Assign(name, subscripts), right)?;
            Ok(next)
        }
        Writing::Update(sign, name, right) => {
            let next = read_target(alloc, m, sign, name, right, &subscripts)?;
            Ok(next)
        }
    }
}

/// Evaluates the next subscript of a target, or goes on behind the last.
pub fn keys<'a>(
    alloc: Global,
    m: &mut Evaluator<'a>,
    writing: Writing<'a>,
    rest: &'a [Option<Expr>],
    mut done: Vec<Option<Value>>,
) -> Result<Focus<'a>, NoMemory>
    ensures { IfOk result
        (λ f. (r : PlainRequest) (fs : List PlainFunction)
        → Moves r fs (Focus.Keys writing.entry rest.entry done) m.old f m.new) }
{
    match rest.split_first() {
        None => {
            let next = subscripted(alloc, m, writing, done)?;
            Ok(next)
        }
        Some((Some(subscript), others)) => {
            let next = m.open(Frame::Keys(writing, others, done), subscript)?;
            Ok(next)
        }
        Some((None, others)) => {
            done.push(None)?;
            Ok(Focus::Keys(writing, others, done))
        }
    }
}
