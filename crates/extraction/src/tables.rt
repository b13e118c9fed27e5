//! The tables of a program.

ghost use Rattle.std.specs.Prelude.{◌≡◌, IfOk};
ghost use Rattle.extraction.specs.Tables.{AreTables};

use crate::params::params_of;
use flow_code::FlowProgram;
use flow_graph::{Handed, PointRow, returned_pairs};
use indexmap::IndexSet;
use point_listing::{ToldKey, told_keys};
use ssa_form::{Versions, ssa};
use std::alloc::Global;
use text_base::NoMemory;

/// What is found out once of a program of points.
#[derive(Drop)]
pub struct FlowTables<'a> {
    pub flow: &'a FlowProgram,
    /// All points, by their numbers.
    pub row: PointRow<'a>,
    /// The keys that are told apart.
    pub told: Vec<ToldKey>,
    /// The version of each slot that a point reads.
    pub versions: Versions,
    /// By the number of each function, its points that return, each with the slot that it returns.
    pub returned: Vec<Vec<(u64, u64)>>,
    /// What calls hand in for the parameters of functions.
    pub handed: Handed,
    /// The parameters of functions, each with the number of its function.
    pub params: IndexSet<(u64, u64)>,
}

/// The tables of a program. Linear in the program, and for each slot that is joined where several
/// points lead, in these points.
pub fn tables_of(alloc: Global, flow: &FlowProgram) -> Result<FlowTables<'_>, NoMemory>
    ensures flow { IfOk result (λ tables. tables.flow.now ≡ flow.now) }
    ensures tables { IfOk result AreTables }
{
    let row = PointRow::new(alloc, flow)?;
    let told = told_keys(alloc, flow)?;
    let versions = ssa(alloc, flow)?;
    let returned = returned_pairs(alloc, &row, &flow.functions)?;
    let handed = Handed::new(alloc, &row, &flow.functions)?;
    let params = params_of(alloc, &flow.functions)?;
    Ok(FlowTables {
        flow,
        row,
        told,
        versions,
        returned,
        handed,
        params,
    })
}
