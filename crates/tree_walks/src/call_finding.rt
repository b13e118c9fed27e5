//! The calls in expressions, and in files.

ghost use Rattle.std.specs.Prelude.{◌≡◌, [], ◌∷◌, ◌++◌, List, OnOk};
ghost use Rattle.php_syntax.specs.Trees.{plain_expr, stmts_of, functions_of_list};
ghost use Rattle.program_rules.specs.Calls.{PlainCall, own_call, statement_calls, function_calls};
ghost use Rattle.tree_walks.specs.Seen.{calls_seen};

use crate::call::Call;
use crate::{Visitor, visit_bodies, visit_stmts};
use php_syntax::tree::{Expr, FunctionDef, Stmt};
use std::alloc::Global;
use text_base::{Bytes, NoMemory};

// The calls that are found.
#[derive(Drop)]
struct Finder {
    alloc: Global,
    calls: Vec<Call>,
}

impl Finder {
    // One more call.
    #[tactic(auto, using(crate::proofs::CallLemmas::ends))]
    fn put(&mut self, name: &Bytes, arguments: usize) -> Result<(), NoMemory>
        ensures { OnOk result (calls_seen self.new.calls.items ≡ calls_seen self.old.calls.items
            ++ record { name_of = name.now; arguments = arguments } ∷ []) }
    {
        let name = name.copy(self.alloc)?;
        self.calls.push(Call { name, arguments })?;
        Ok(())
    }
}

impl Visitor for Finder {
    type Stop = NoMemory;

    ghost State = { List PlainCall };

    ghost state = { λ finder. calls_seen finder.calls.items };

    ghost next = { λ calls e. calls ++ own_call e };

    #[tactic(auto, using(php_syntax::proofs::Views::views, crate::proofs::CallLemmas::ends, crate::proofs::CallLemmas::number_of_exprs), unfolding(program_rules::specs::Calls::own_call))]
    fn visit(&mut self, expr: &Expr) -> Result<(), NoMemory> {
        match expr {
            Expr::Call(name, arguments) => self.put(name, arguments.len()),
            Expr::Null | Expr::Flag(_) | Expr::Int(_) | Expr::Text(_) => Ok(()),
            Expr::Var(_) | Expr::Super(_) | Expr::Member(..) => Ok(()),
            Expr::ArrayOf(_) | Expr::Join(_) | Expr::Neg(_) | Expr::Not(_) => Ok(()),
            Expr::Arith(..) | Expr::Compare(..) | Expr::And(..) | Expr::Or(..) => Ok(()),
            Expr::Coalesce(..) | Expr::Choice(..) | Expr::Isset(_) => Ok(()),
            Expr::Empty(_) | Expr::Assign(..) | Expr::Update(..) | Expr::Step { .. } => Ok(()),
        }
    }

    #[tactic(auto, using(crate::proofs::CallLemmas::ends), unfolding(program_rules::specs::Calls::own_call))]
    fn visit_variable(&mut self, _name: &Bytes) -> Result<(), NoMemory> {
        Ok(())
    }
}

/// The calls in statements, and then those in the bodies of functions, put behind those found
/// before. A default is a literal and has none.
pub fn find_calls(
    alloc: Global,
    stmts: &[Stmt],
    functions: &[FunctionDef],
    found: &mut Vec<Call>,
) -> Result<(), NoMemory>
    ensures { OnOk result (calls_seen found.new.items ≡ calls_seen found.old.items
        ++ (statement_calls (stmts_of stmts.now)
        ++ function_calls (functions_of_list functions.now))) }
{
    let mut finder = Finder {
        alloc,
        calls: Vec::new(alloc),
    };
    visit_stmts(&mut finder, stmts)?;
    visit_bodies(&mut finder, functions)?;
    found.append(&mut finder.calls)?;
    Ok(())
}
