//! The lister of a program.

ghost use Rattle.std.specs.Prelude.{◌≡◌, IfOk};
ghost use Rattle.flow_code.specs.View.{plain_flow};
ghost use Rattle.extraction.specs.Tables.{flow_of, lists_of, AreTables};
ghost use Rattle.extraction.specs.Ends.{IsExactLister};
ghost use Rattle.extraction.specs.FlowAsked.{IsAsked};

use crate::{FlowTables, Lister, forms_by, tables_of};
use flow_code::FlowProgram;
use loose_sets::SetName;
use point_listing::NamedForm;
use std::alloc::Global;
use text_base::NoMemory;

/// Lists the rows of the sets of a program of points by their names.
#[derive(Drop)]
pub struct FlowLister<'a> {
    /// What is found out once of the program.
    pub tables: FlowTables<'a>,
}

impl<'a> FlowLister<'a> {
    /// The lister of a program. Linear in the program, and for each slot that is joined where
    /// several points lead, in these points.
    pub fn new(alloc: Global, flow: &'a FlowProgram) -> Result<FlowLister<'a>, NoMemory>
        ensures flow { IfOk result (λ lister. flow_of lister.tables ≡ plain_flow flow.now) }
        ensures tables { IfOk result (λ lister. AreTables lister.tables) }
        ensures exact { IfOk result
            (λ lister. IsExactLister (plain_flow flow.now) (IsAsked lister.tables)
            (lists_of lister.tables)) }
    {
        let tables = tables_of(alloc, flow)?;
        Ok(FlowLister { tables })
    }
}

impl<'a> Lister for FlowLister<'a> {
    ghost asks = { λ lister. IsAsked lister.tables };

    ghost lists = { λ lister. lists_of lister.tables };

    fn forms(&self, alloc: Global, name: SetName) -> Result<Vec<NamedForm>, NoMemory> {
        let forms = forms_by(alloc, &self.tables, name)?;
        Ok(forms)
    }
}
