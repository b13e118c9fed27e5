//! Functions and programs of points.

use crate::point::FlowPoint;
use text_base::{Point, Slot};

/// A function: where it begins, the slots of its parameters, and the slots and points that are its
/// own.
#[derive(Debug, Drop)]
pub struct FlowFunction {
    pub entry: Point,
    pub params: Vec<Slot>,
    pub first_slot: Slot,
    pub slots: u64,
    pub first_point: Point,
    pub points: Vec<FlowPoint>,
}

/// A program: its first function holds the statements outside functions. Points and slots are
/// numbered through all functions.
#[derive(Debug, Drop)]
pub struct FlowProgram {
    pub functions: Vec<FlowFunction>,
}
