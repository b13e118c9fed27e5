//! Expressions in a row.

ghost use Rattle.std.specs.Prelude.{◌≡◌, IfOk};
ghost use Rattle.expr_machine.specs.Values as plain;
ghost use Rattle.expr_builder.specs.Views.{plain_values};
ghost use Rattle.stmt_builder.specs.Views.{gathered};

use expr_builder::value::Value;
use expr_builder::values::Values;
use php_syntax::tree::Expr;
use std::alloc::Global;
use text_base::NoMemory;

/// Expressions in a row, each at most 200 high.
#[derive(Debug, Drop)]
pub(crate) struct Exprs {
    /// The expressions.
    pub(crate) exprs: Vec<Expr>,
    /// The height of the highest, 0 where there is none.
    pub(crate) height: u32,
}

/// The expressions of values in a row, where all are kept.
#[tactic(auto, using(crate::proofs::RowLemmas::row_lemmas))]
pub(crate) fn gather_exprs(alloc: Global, mut row: Values) -> Result<Option<Exprs>, NoMemory>
    ensures { IfOk result (λ found. gathered found ≡ plain.gather_exprs (plain_values row)) }
{
    let mut exprs = Vec::new(alloc);
    let mut height: u32 = 0;
    'gathering: while let Some(value) = row.pop() {
        match value {
            Value::Known { tree, height: own } => {
                exprs.push(tree)?;
                height = height.max(own);
            }
            Value::Tall { .. } => return Ok(None),
            Value::Absent => return Ok(None),
        }
    }
    Ok(Some(Exprs { exprs, height }))
}
