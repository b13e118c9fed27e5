//! The bodies of functions.

ghost use Rattle.std.specs.Prelude.{◌≡◌, ◌≤◌, IfOk, OnOk};
ghost use Rattle.php_syntax.specs.Trees.{stmts_of};
ghost use Rattle.flow_code.specs.Completion.{reaches_end};
ghost use Rattle.flow_code.specs.Statements.{block};
ghost use Rattle.flow_code.specs.Flat.{end_points, end_slots};
ghost use Rattle.flow_lowering.specs.View.{progress};
ghost use Rattle.flow_lowering.specs.Emits.{Puts, place, START_LIMIT};
ghost use Rattle.flow_lowering.specs.ScopeView.{scope_in};
ghost use Rattle.program_lowering.specs.Bodies.{with_end};

use crate::lower_stmts;
use expression_lowering::LoweringError;
use flow_code::{FlowPoint, Source};
use flow_lowering::{FunctionScope, PointBuilder, fill_exits};
use php_syntax::tree::Stmt;
use php_values::Value;
use std::alloc::Global;
use text_base::NoMemory;

// The end of a body: where it can be reached, null is returned.
fn put_end(reached: bool, points: &mut PointBuilder) -> Result<(), NoMemory>
    ensures { OnOk result (Puts (progress points.old) (progress points.new)
        (end_points reached (place (progress points.old)) (progress points.old).slot)
        (end_slots reached)) }
{
    if reached {
        let slot = points.compute(Source::Lit(Value::Null))?;
        points.push(FlowPoint::Return { slot })?;
        Ok(())
    } else {
        Ok(())
    }
}

/// The points of a body, whose first point and first free slot have these numbers.
pub(crate) fn lower_body(
    alloc: Global,
    scope: &FunctionScope<'_>,
    body: &[Stmt],
    point: u64,
    free: u64,
) -> Result<PointBuilder, LoweringError>
    requires point { point ≤ START_LIMIT }
    requires free { free ≤ START_LIMIT }
    ensures { IfOk result
        (λ points. progress points
        ≡ with_end (reaches_end (stmts_of body.now))
        (block (scope_in scope.now) (stmts_of body.now)) point free) }
{
    let mut points = PointBuilder::new(alloc, point, free);
    let mut exits = Vec::new(alloc);
    let ways = lower_stmts(alloc, scope, body, &mut points, &mut exits)?;
    let end = points.place();
    fill_exits(exits, end, end, &mut points);
    put_end(ways.reach_end(), &mut points)?;
    Ok(points)
}
