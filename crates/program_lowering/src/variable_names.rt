//! The names of variables, each where it first stands.

ghost use Rattle.std.specs.Prelude.{◌≡◌, [], ◌∷◌, List, OnOk};
ghost use Rattle.php_syntax.specs.Trees.{plain_expr};
ghost use Rattle.flow_code.specs.Variables.{Name, own_names};
ghost use Rattle.program_lowering.specs.Added.{put, added};

use indexmap::IndexSet;
use numbered_sets::{number, number_of};
use php_syntax::tree::Expr;
use std::alloc::Global;
use text_base::{Bytes, NoMemory};
use tree_walks::Visitor;

/// The names so far, in the order in which they first stood.
#[derive(Drop)]
pub(crate) struct Names {
    pub(crate) alloc: Global,
    pub(crate) known: IndexSet<Bytes>,
}

impl Names {
    /// A name, which is put behind the others where it is new.
    #[tactic(auto, using(crate::proofs::AddedLemmas::put_there, crate::proofs::AddedLemmas::put_new))]
    pub(crate) fn note(&mut self, name: &Bytes) -> Result<(), NoMemory>
        ensures { OnOk result (self.new.known.keys ≡ put self.old.known.keys name.now) }
    {
        match number_of(&self.known, name) {
            Some(_) => Ok(()),
            None => {
                let name = name.copy(self.alloc)?;
                number(&mut self.known, name)?;
                Ok(())
            }
        }
    }
}

impl Visitor for Names {
    type Stop = NoMemory;

    ghost State = { List Name };

    ghost state = { λ names. names.known.keys };

    ghost next = { λ known e. added known (own_names e) };

    #[tactic(auto, using(php_syntax::proofs::Views::views, crate::proofs::AddedLemmas::ends), unfolding(flow_code::specs::Variables::own_names))]
    fn visit(&mut self, expr: &Expr) -> Result<(), NoMemory> {
        match expr {
            Expr::Var(name) => self.note(name),
            Expr::Assign(target, _) => self.note(&target.name),
            Expr::Update(_, target, _) => self.note(&target.name),
            Expr::Step { name, .. } => self.note(name),
            Expr::Null | Expr::Flag(_) | Expr::Int(_) | Expr::Text(_) => Ok(()),
            Expr::Super(_) | Expr::Member(..) | Expr::ArrayOf(_) | Expr::Join(_) => Ok(()),
            Expr::Neg(_) | Expr::Not(_) | Expr::Arith(..) | Expr::Compare(..) => Ok(()),
            Expr::And(..) | Expr::Or(..) | Expr::Coalesce(..) | Expr::Choice(..) => Ok(()),
            Expr::Isset(_) | Expr::Empty(_) | Expr::Call(..) => Ok(()),
        }
    }

    #[tactic(auto, using(crate::proofs::AddedLemmas::ends), unfolding(flow_code::specs::Variables::own_names))]
    fn visit_variable(&mut self, name: &Bytes) -> Result<(), NoMemory> {
        self.note(name)
    }
}
