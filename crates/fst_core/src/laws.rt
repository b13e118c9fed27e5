//! A law of items. The function does nothing; it stands for the law that its contract states.

ghost use Rattle.std.specs.Prelude.{◌≡◌, ◌∷◌, Some, slice_get, length};
ghost use Rattle.cfg_grammar.specs.declared.symbol.Symbol as symbol;
ghost use Rattle.fst_core.specs.Outputs.{Leads};
ghost use Rattle.fst_core.specs.Items.{Item, IsItem, IsWhole};

use crate::Machine;
use cfg_grammar::Grammar;
use text_base::Nt;

/// An item whose symbols are all read leads the machine from its first state to its last, by a text
/// of the left side.
pub fn whole_items_lead<M: Machine>(grammar: &Grammar, machine: &M, from: Nt)
    ensures { (item : Item M.State)
        (it : IsItem grammar.now.productions.items (M.steps machine.now) from (M.first machine.now)
        item)
        → IsWhole it.production item → (t : M.State)
        → slice_get (item.entry ∷ item.after) (length item.after) ≡ Some t
        → Leads grammar.now.productions.items (M.steps machine.now) item.entry
        (symbol.Symbol.Nt it.production.left) t }
{}
