//! Operations of PHP's functions whose other arguments are literals.

ghost use Rattle.std.specs.Prelude.{◌≡◌, IfOk};
ghost use Rattle.php_syntax.specs.Trees.{plain_expr};
ghost use Rattle.flow_code.specs.Builtins.{replacement, splitting};

use op_system::Op;
use php_syntax::tree::Expr;
use script_meaning::literal_text;
use std::alloc::Global;
use text_base::NoMemory;

/// The operation of `str_replace`, by the search and the replacement.
#[tactic(auto, using(crate::proofs::FormLemmas::no_search, crate::proofs::FormLemmas::no_with), unfolding(flow_code::specs::Builtins::replacement))]
pub fn replacement_of(alloc: Global, search: &Expr, with: &Expr) -> Result<Op, NoMemory>
    ensures { IfOk result (λ op. op ≡ replacement (plain_expr search.now) (plain_expr with.now)) }
{
    let Some(search) = literal_text(search) else {
        return Ok(Op::Any);
    };
    let Some(with) = literal_text(with) else {
        return Ok(Op::Any);
    };
    if search.as_slice().is_empty() {
        return Ok(Op::Same);
    }
    let search = search.copy(alloc)?;
    let with = with.copy(alloc)?;
    Ok(Op::Replace { search, with })
}

/// The operation of `explode`, by the separator.
#[tactic(auto, using(crate::proofs::FormLemmas::no_separator), unfolding(flow_code::specs::Builtins::splitting))]
pub fn splitting_of(alloc: Global, separator: &Expr) -> Result<Op, NoMemory>
    ensures { IfOk result (λ op. op ≡ splitting (plain_expr separator.now)) }
{
    match literal_text(separator) {
        Some(text) => {
            let sep = text.copy(alloc)?;
            Ok(Op::Piece { sep })
        }
        None => Ok(Op::Factor),
    }
}
