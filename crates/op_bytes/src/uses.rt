//! Which nonterminals take over the bytes of which.

ghost use Rattle.std.specs.Prelude.{◌≡◌, ◌++◌, [], OnOk};
ghost use Rattle.op_bytes.specs.Work.{uses_in, uses_on, uses_of};

use cfg_grammar::{Production, Right, Symbol};
use text_base::NoMemory;

/// The nonterminal `from` stands on the right of a production of `to`.
#[derive(Clone, Copy, Debug)]
pub struct Use {
    pub from: u64,
    pub to: u64,
}

/// Adds the use of a symbol.
fn add_symbol(uses: &mut Vec<Use>, left: u64, symbol: Symbol) -> Result<(), NoMemory>
    ensures { OnOk result (uses.new.items ≡ uses.old.items ++ uses_in left symbol) }
{
    match symbol {
        Symbol::Range(_) => Ok(()),
        Symbol::Token(_) => Ok(()),
        Symbol::Nt(a) => {
            uses.push(Use {
                from: a.0,
                to: left,
            })?;
            Ok(())
        }
    }
}

/// Adds the uses of a production.
fn add_production(uses: &mut Vec<Use>, p: Production) -> Result<(), NoMemory>
    ensures { OnOk result (uses.new.items ≡ uses.old.items ++ uses_on p.left.0 p.right) }
{
    match p.right {
        Right::Empty => Ok(()),
        Right::One(a) => add_symbol(uses, p.left.0, a),
        Right::Two(a, b) => {
            add_symbol(uses, p.left.0, a)?;
            add_symbol(uses, p.left.0, b)
        }
    }
}

/// Adds the uses of all productions.
pub fn add_productions(uses: &mut Vec<Use>, productions: &[Production]) -> Result<(), NoMemory>
    ensures { OnOk result (uses.new.items ≡ uses.old.items ++ uses_of productions.now) }
{
    for p in productions {
        add_production(uses, *p)?;
    }
    Ok(())
}
