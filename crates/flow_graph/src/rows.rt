//! All points of a program in a row.

ghost use Rattle.std.specs.Prelude.{◌≡◌, ◌++◌, map, IfOk, OnOk, Some, None, MatchOption, slice_get};
ghost use Rattle.flow_code.specs.Points.{points_in};
ghost use Rattle.flow_code.specs.View.{plain_point, plain_flow_function, plain_flow};

use flow_code::{FlowFunction, FlowPoint, FlowProgram};
use std::alloc::Global;
use text_base::NoMemory;

/// The points of a program by their numbers, so that each is found in constant time.
#[derive(Drop)]
pub struct PointRow<'a> {
    pub points: Vec<&'a FlowPoint>,
}

// The points of one function.
#[tactic(auto, using(crate::proofs::RowLemmas::ends))]
fn put_points<'a>(row: &mut Vec<&'a FlowPoint>, points: &'a [FlowPoint]) -> Result<(), NoMemory>
    ensures { OnOk result (map (λ r. plain_point r.now) row.new.items
        ≡ map (λ r. plain_point r.now) row.old.items ++ map plain_point points.now) }
{
    for point in points {
        row.push(point)?;
    }
    Ok(())
}

// The points of functions, one function after the other.
#[tactic(auto, using(crate::proofs::RowLemmas::ends), unfolding(flow_code::specs::Points::points_in))]
fn put_functions<'a>(
    row: &mut Vec<&'a FlowPoint>,
    functions: &'a [FlowFunction],
) -> Result<(), NoMemory>
    ensures { OnOk result (map (λ r. plain_point r.now) row.new.items
        ≡ map (λ r. plain_point r.now) row.old.items
        ++ points_in (map plain_flow_function functions.now)) }
{
    for function in functions {
        put_points(row, &function.points)?;
    }
    Ok(())
}

impl<'a> PointRow<'a> {
    ghost use Rattle.flow_graph.specs.Rows.{points_seen};

    /// The points of a program. Linear in the program.
    pub fn new(alloc: Global, flow: &'a FlowProgram) -> Result<PointRow<'a>, NoMemory>
        ensures { IfOk result
            (λ row. points_seen row ≡ points_in (plain_flow flow.now).functions_of) }
    {
        let mut points = Vec::new(alloc);
        put_functions(&mut points, &flow.functions)?;
        Ok(PointRow { points })
    }

    /// The point of a number, if there is one. In constant time.
    pub fn find(&self, number: u64) -> Option<&'a FlowPoint>
        ensures { MatchOption result (slice_get (points_seen self.now) number ≡ None)
            (λ point. slice_get (points_seen self.now) number ≡ Some (plain_point point.now)) }
    {
        self.points.get(number as usize).copied()
    }
}
