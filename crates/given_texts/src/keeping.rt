//! The productions that are kept.

ghost use Rattle.std.specs.Prelude.{◌≡◌, ◌++◌, false, get_or, OnOk};
ghost use Rattle.given_texts.specs.Kept as spec;
ghost use Rattle.given_texts.specs.Kept.{symbol_kept, right_kept, kept_one};

use crate::moving::moved_production;
use cfg_grammar::{Production, Right, Symbol};
use text_base::NoMemory;

/// Whether a number is marked.
fn is_marked(marks: &[bool], n: u64) -> bool
    ensures { result ≡ get_or marks.now n false }
{
    match marks.get(n as usize) {
        Some(mark) => *mark,
        None => false,
    }
}

/// Whether the symbol is no nonterminal, or a marked one.
fn symbol_is_kept(marks: &[bool], symbol: Symbol) -> bool
    ensures { result ≡ symbol_kept marks.now symbol }
{
    match symbol {
        Symbol::Range(_) => true,
        Symbol::Token(_) => true,
        Symbol::Nt(a) => is_marked(marks, a.0),
    }
}

/// Whether each nonterminal on the right side is marked.
fn right_is_kept(marks: &[bool], right: Right) -> bool
    ensures { result ≡ right_kept marks.now right }
{
    match right {
        Right::Empty => true,
        Right::One(a) => symbol_is_kept(marks, a),
        Right::Two(a, b) => symbol_is_kept(marks, a) && symbol_is_kept(marks, b),
    }
}

/// Puts a production with higher numbers behind the others, if it is kept.
fn add_one(
    productions: &mut Vec<Production>,
    marks: &[bool],
    base: u64,
    production: Production,
) -> Result<(), NoMemory>
    ensures { OnOk result (productions.new.items
        ≡ productions.old.items ++ kept_one marks.now base production) }
{
    if right_is_kept(marks, production.right) {
        productions.push(moved_production(base, production)?)?;
    }
    Ok(())
}

/// Puts those productions that are kept behind the others, with higher numbers.
pub(crate) fn add_kept(
    productions: &mut Vec<Production>,
    marks: &[bool],
    base: u64,
    more: &[Production],
) -> Result<(), NoMemory>
    ensures { OnOk result (productions.new.items
        ≡ productions.old.items ++ spec.kept marks.now base more.now) }
{
    for production in more {
        add_one(productions, marks, base, *production)?;
    }
    Ok(())
}
