//! The kinds of points, as letters.

use flow_code::{FlowFunction, FlowPoint};
use std::alloc::AllocError;

// The letter of a point.
fn letter(point: &FlowPoint) -> &'static str {
    match point {
        FlowPoint::Set { .. } => "s",
        FlowPoint::Call { .. } => "c",
        FlowPoint::Print { .. } => "p",
        FlowPoint::Echo { .. } => "e",
        FlowPoint::Branch { .. } => "b",
        FlowPoint::Jump { .. } => "j",
        FlowPoint::EachBegin { .. } => "w",
        FlowPoint::EachNext { .. } => "n",
        FlowPoint::KeyOf { .. } => "k",
        FlowPoint::ValueOf { .. } => "v",
        FlowPoint::Return { .. } => "r",
        FlowPoint::Quit { .. } => "q",
    }
}

// The points of a function.
fn put_points(out: &mut String, points: &[FlowPoint]) -> Result<(), AllocError> {
    for point in points {
        out.push_str(letter(point))?;
    }
    Ok(())
}

/// The points of functions, with a blank behind each function.
pub fn put_functions(out: &mut String, functions: &[FlowFunction]) -> Result<(), AllocError> {
    for function in functions {
        put_points(out, function.points.as_slice())?;
        out.push_str(" ")?;
    }
    Ok(())
}
