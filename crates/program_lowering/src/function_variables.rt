//! The variables of functions.

ghost use Rattle.std.specs.Prelude.{◌≡◌, ◌++◌, map, IfOk, OnOk};
ghost use Rattle.php_syntax.specs.Trees.{stmts_of, params_of_list};
ghost use Rattle.flow_code.specs.Variables.{names_of, name_of_param, once};
ghost use Rattle.program_lowering.specs.Added.{added};

use crate::variable_names::Names;
use indexmap::IndexSet;
use php_syntax::tree::{Param, Stmt};
use std::alloc::Global;
use text_base::{Bytes, NoMemory};
use tree_walks::visit_stmts;

// The parameters of a function.
#[tactic(auto, using(crate::proofs::AddedLemmas::ends))]
fn in_params(names: &mut Names, params: &[Param]) -> Result<(), NoMemory>
    ensures { OnOk result
        (names.new.known.keys ≡ added names.old.known.keys (map name_of_param (params_of_list params.now))) }
{
    for param in params {
        names.note(&param.name)?;
    }
    Ok(())
}

/// The variables of a function with these parameters and this body: each name once, in the order in
/// which they first stand.
#[tactic(auto, using(crate::proofs::AddedLemmas::ends, crate::proofs::AddedLemmas::added_once))]
pub fn variables_of(
    alloc: Global,
    params: &[Param],
    body: &[Stmt],
) -> Result<IndexSet<Bytes>, NoMemory>
    ensures { IfOk result
        (λ names. names.keys
        ≡ once (map name_of_param (params_of_list params.now) ++ names_of (stmts_of body.now))) }
{
    let mut names = Names {
        alloc,
        known: IndexSet::new(alloc),
    };
    in_params(&mut names, params)?;
    visit_stmts(&mut names, body)?;
    Ok(names.known)
}
