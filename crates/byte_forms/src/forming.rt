//! The bytes of a class as ranges, from the last byte down.

ghost use Rattle.std.specs.Prelude.{◌≡◌, ◌≤◌, ◌<◌, IfOk, IfSome, None};
ghost use Rattle.derivatives.specs.Expressions.{nothing, range};
ghost use Rattle.derivatives.specs.Derivatives.{either_of};
ghost use Rattle.derivatives.specs.Standing.{IsExpr, IsMade, Grows, expr_at};
ghost use Rattle.byte_forms.specs.Classes.{in_class};
ghost use Rattle.byte_forms.specs.Ranges.{ranges_below};
ghost use Rattle.byte_forms.specs.Runs.{IsLonger};

use crate::class::ByteClass;
use derivatives::Arena;
use text_base::{ByteRange, NoMemory};

/// The bytes from one to another, or an expression.
fn or_range(arena: &mut Arena, low: u8, high: u8, form: usize) -> Result<usize, NoMemory>
    requires form { IsExpr arena.old form }
    requires ordered { low ≤ high }
    ensures made { IfOk result
        (λ r. IsMade arena.new r (either_of (range low high) (expr_at arena.old form))) }
    ensures keeps { Grows arena.old arena.new }
{
    let bytes = arena.range(ByteRange { lo: low, hi: high })?;
    arena.either(bytes, form)
}

/// The bytes of a class from some byte on: an expression, and the last byte of a run that begins at
/// that byte and may go on below it.
#[derive(Clone, Copy)]
struct Run {
    form: usize,
    last: Option<u8>,
}

/// One byte more, below the others.
fn with_byte(arena: &mut Arena, passes: bool, byte: u8, run: Run) -> Result<Run, NoMemory>
    requires form { IsExpr arena.old run.form }
    requires wide { IfSome run.last (λ last. byte < last) }
    ensures made { IfOk result (λ r. IsLonger passes byte arena.old run arena.new r) }
    ensures keeps { Grows arena.old arena.new }
{
    match (passes, run.last) {
        (true, None) => Ok(Run {
            form: run.form,
            last: Some(byte),
        }),
        (true, Some(_)) | (false, None) => Ok(run),
        (false, Some(last)) => {
            let form = or_range(arena, byte + 1, last, run.form)?;
            Ok(Run { form, last: None })
        }
    }
}

/// One byte of a class, of those below a bound: neighbours are one range, so that there are at most
/// half as many ranges as bytes.
pub fn class_form(arena: &mut Arena, class: &ByteClass, bound: usize) -> Result<usize, NoMemory>
    requires { bound ≤ 256 }
    ensures made { IfOk result
        (λ r. IsMade arena.new r (ranges_below (in_class class.now) bound None nothing)) }
    ensures keeps { Grows arena.old arena.new }
{
    let mut run = Run {
        form: arena.nothing()?,
        last: None,
    };
    let mut below = bound;
    while below > 0 {
        below -= 1;
        let byte = below as u8;
        run = with_byte(arena, class.has(byte), byte, run)?;
    }
    match run.last {
        Some(last) => or_range(arena, 0, last, run.form),
        None => Ok(run.form),
    }
}
