//! The system of a draft.

ghost use Rattle.std.specs.Prelude.{◌≡◌, ◌<◌, IfOk};
ghost use Rattle.cfg_grammar.specs.Below.{AreBelow};
ghost use Rattle.cfg_grammar.specs.Tokens.{HaveNoToken};
ghost use Rattle.op_system.specs.Rules.{RulesAreBelow};
ghost use Rattle.system_writing.specs.Steps.{IsBelow, Finishes};

use crate::drafts::Draft;
use crate::lines::Lines;
use crate::waiting::add_waiting;
use cfg_grammar::Grammar;
use op_system::OpSystem;
use std::alloc::Global;
use text_base::{NoMemory, Nt};
use useful_nonterminals::productive;

/// The lines as a system that begins with the nonterminal.
fn finished(start: u64, lines: Lines) -> OpSystem
    requires starts { start < lines.count }
    requires below { AreBelow lines.count lines.productions.items }
    requires rules { RulesAreBelow lines.count lines.rules.items }
    requires tokens { HaveNoToken lines.productions.items }
    ensures start { result.start.0 ≡ start }
    ensures kept { (result.grammar.count ≡ lines.count)
        × (result.grammar.productions.items ≡ lines.productions.items)
        × (result.ops.items ≡ lines.rules.items) }
{
    let grammar = Grammar {
        start: Nt(start),
        count: lines.count,
        productions: lines.productions,
    };
    OpSystem {
        grammar,
        ops: lines.rules,
        start: Nt(start),
    }
}

impl Draft {
    /// The system, with those of the texts that wait whose sets say yes. Linear in the draft.
    pub fn finish(self, alloc: Global) -> Result<OpSystem, NoMemory>
        requires { IsBelow self }
        ensures { IfOk result (Finishes self) }
    {
        let mut lines = self.lines;
        let said = Grammar {
            start: Nt(self.start),
            count: lines.count,
            productions: self.said,
        };
        let marks = productive(alloc, &said)?;
        add_waiting(&mut lines, marks.as_slice(), self.waiting.as_slice())?;
        Ok(finished(self.start, lines))
    }
}
