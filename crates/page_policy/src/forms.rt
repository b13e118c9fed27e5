//! The expressions of the parts of a pattern.

ghost use Rattle.std.specs.Prelude.{ℕ, Bool, List, IfOk};
ghost use Rattle.derivatives.specs.Standing.{IsExpr, Grows};
ghost use Rattle.page_policy.specs.Patterns.{byte_of};
ghost use Rattle.page_policy.specs.Patterns.{Pattern as Plain};
ghost use Rattle.page_policy.specs.Forms.{IsForm};
ghost use Rattle.page_policy.specs.Machine as spec;
ghost use Rattle.page_policy.specs.Views.{IsClass};

use crate::part::Repeat;
use byte_forms::{ByteClass, class_form};
use derivatives::Arena;
use text_base::NoMemory;

/// A byte of a class.
pub(crate) fn byte_form(arena: &mut Arena, class: &ByteClass) -> Result<usize, NoMemory>
    ensures is_expr { IfOk result (λ r. IsExpr arena.new r) }
    ensures made { IfOk result (λ r. (out : Bool) (rs : List (ℕ × ℕ)) → IsClass class.now out rs
        → IsForm arena.new r (byte_of out rs)) }
    ensures keeps { Grows arena.old arena.new }
{
    class_form(arena, class, 256)
}

/// A pattern, so often.
pub(crate) fn repeated(arena: &mut Arena, form: usize, repeat: Repeat) -> Result<usize, NoMemory>
    requires { IsExpr arena.old form }
    ensures is_expr { IfOk result (λ r. IsExpr arena.new r) }
    ensures made { IfOk result (λ r. (p : Plain) → IsForm arena.old form p
        → IsForm arena.new r (spec.repeated repeat p)) }
    ensures keeps { Grows arena.old arena.new }
{
    match repeat {
        Repeat::Once => Ok(form),
        Repeat::Any => arena.star(form),
        Repeat::AtLeastOnce => {
            let more = arena.star(form)?;
            arena.chain(form, more)
        }
        Repeat::AtMostOnce => {
            let none = arena.empty()?;
            arena.either(none, form)
        }
    }
}
