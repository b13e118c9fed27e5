//! The grammar.

ghost use Rattle.std.specs.Prelude.{◌≡◌, ◌++◌, map, length, IfOk, OnOk};
ghost use Rattle.xml_text.specs.Texts.{IsText};
ghost use Rattle.given_texts.specs.Closed.{IsClosed};
ghost use Rattle.given_texts.specs.Given.{closed_of};
ghost use Rattle.given_texts.specs.Rows.{end_production};
ghost use Rattle.given_texts.specs.declared.text_rows.TheConstants.{ENDS as the_ends};

use crate::GivenTexts;
use crate::given_listing::row_productions;
use crate::text_rows::{COUNT, ENDS, ROWS};
use cfg_grammar::{Grammar, Production, Right, Symbol};
use std::alloc::Global;
use text_base::{NoMemory, Nt};

/// Puts the productions without symbols behind the others.
fn add_ends(productions: &mut Vec<Production>) -> Result<(), NoMemory>
    ensures { OnOk result (productions.new.items
        ≡ productions.old.items ++ map end_production the_ends) }
{
    for n in ENDS.as_slice() {
        productions.push(Production {
            left: Nt(*n),
            right: Right::Empty,
        })?;
    }
    Ok(())
}

/// The grammar of all texts of XML's characters, with the nonterminal of all integer texts. It has
/// 32 nonterminals and 65 productions.
pub fn given_texts(alloc: Global) -> Result<GivenTexts, NoMemory>
    ensures closed { IfOk result (λ g. IsClosed (closed_of g) IsText) }
    ensures numbers { IfOk result (λ g. g.grammar.count ≡ 32) }
    ensures sizes { IfOk result (λ g. length g.grammar.productions.items ≡ 65) }
{
    let mut productions = row_productions(alloc, ROWS.as_slice())?;
    productions.push(Production {
        left: Nt(0),
        right: Right::Two(Symbol::Nt(Nt(0)), Symbol::Nt(Nt(1))),
    })?;
    add_ends(&mut productions)?;
    let grammar = Grammar {
        start: Nt(0),
        count: COUNT,
        productions,
    };
    Ok(GivenTexts {
        grammar,
        integer: Nt(11),
    })
}
