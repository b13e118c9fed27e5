//! What is put out, as productions of which none is written twice.

ghost use Rattle.std.specs.Prelude.{◌≡◌, ◌≤◌, [], OnOk, IfOk, true, false};
ghost use Rattle.std.proofs.Common.{rules};
ghost use Rattle.chart_grammar.specs.Lifts.{said_right};
ghost use Rattle.chart_grammar.specs.Saying.{Says, SaysWide, Stays};

use crate::fronts::{Front, front_of};
use crate::lifts::{right_of, right_of_end};
use cfg_grammar::{Production, Right, Symbol};
use indexmap::IndexSet;
use numbered_sets::number;
use std::alloc::Global;
use text_base::{Exact, NoMemory, Nt};

/// A nonterminal may become another one, where that is not 0, and then what a front stands for.
#[derive(Clone, Copy, Debug, PartialEq, Eq, Hash)]
pub struct Said {
    pub left: u64,
    pub behind: u64,
    pub front: u64,
}

/// A nonterminal, and the least byte of a range that stays whole in what it may become.
#[derive(Clone, Copy, Debug, PartialEq, Eq, Hash)]
pub struct Head {
    pub left: u64,
    pub lo: u8,
}

impl Exact for Said {
    ghost exact = { Prim.search rules };
}

impl Exact for Head {
    ghost exact = { Prim.search rules };
}

/// The productions of an image as they are written.
pub struct Outputs {
    /// The fronts of what is put out.
    pub fronts: IndexSet<Front>,
    /// What is written that puts out one text of letters.
    pub said: IndexSet<Said>,
    /// Where the ranges begin that stay whole.
    pub heads: IndexSet<Head>,
    /// The front that stands for the range that stays whole, for each of them.
    pub wide: Vec<u64>,
    /// The productions.
    pub out: Vec<Production>,
}

// Written out, so that outputs that are let go are one call to the proofs above, and not a step for
// each part.
impl Drop for Outputs {
    fn drop(self) {
        let Outputs {
            fronts: _,
            said: _,
            heads: _,
            wide: _,
            out: _,
        } = self;
    }
}

impl Outputs {
    /// The fronts, and the productions.
    pub fn into_parts(self) -> (IndexSet<Front>, Vec<Production>)
        ensures fronts { result.0 ≡ self.fronts }
        ensures out { result.1 ≡ self.out }
    {
        let Outputs {
            fronts,
            said: _,
            heads: _,
            wide: _,
            out,
        } = self;
        (fronts, out)
    }
}

/// The right side of what is said.
fn right_of_said(behind: u64, front: u64) -> Right
    ensures { result ≡ said_right behind front }
{
    if behind == 0 {
        return right_of(front);
    }
    right_of_end(Nt(behind), front)
}

/// Writes that a nonterminal may become another one, where that is not 0, and then the symbols,
/// unless it is written.
pub fn say(
    base: u64,
    outputs: &mut Outputs,
    left: u64,
    behind: u64,
    symbols: &[Symbol],
) -> Result<(), NoMemory>
    requires { base ≤ 9223372036854775808 }
    ensures { OnOk result (Says base outputs.old outputs.new left behind symbols.now) }
{
    let front = front_of(&mut outputs.fronts, base, symbols)?;
    let said = Said {
        left,
        behind,
        front,
    };
    let (_, is_new) = number(&mut outputs.said, said)?;
    if !is_new {
        return Ok(());
    }
    let right = right_of_said(behind, front);
    outputs.out.push(Production {
        left: Nt(left),
        right,
    })?;
    Ok(())
}

/// Writes that a nonterminal may become the symbols, in which a range with this least byte stays
/// whole; false, and nothing is written, where there is one already.
pub fn say_wide(
    base: u64,
    outputs: &mut Outputs,
    left: u64,
    lo: u8,
    symbols: &[Symbol],
) -> Result<bool, NoMemory>
    requires { base ≤ 9223372036854775808 }
    ensures says { IfOk result (λ done. done ≡ true
        → SaysWide base outputs.old outputs.new left lo symbols.now) }
    ensures stays { IfOk result (λ done. done ≡ false → Stays outputs.old outputs.new) }
{
    let (_, is_new) = number(&mut outputs.heads, Head { left, lo })?;
    if !is_new {
        return Ok(false);
    }
    let front = front_of(&mut outputs.fronts, base, symbols)?;
    outputs.wide.push(front)?;
    outputs.out.push(Production {
        left: Nt(left),
        right: right_of(front),
    })?;
    Ok(true)
}

/// Nothing written yet but these productions.
pub fn outputs_of(alloc: Global, out: Vec<Production>) -> Outputs
    ensures out { result.out ≡ out }
    ensures fronts { result.fronts.keys ≡ [] }
    ensures said { result.said.keys ≡ [] }
    ensures heads { result.heads.keys ≡ [] }
    ensures wide { result.wide.items ≡ [] }
{
    Outputs {
        fronts: IndexSet::new(alloc),
        said: IndexSet::new(alloc),
        heads: IndexSet::new(alloc),
        wide: Vec::new(alloc),
        out,
    }
}
