//! What is put out at the ends.

ghost use Rattle.std.specs.Prelude.{◌≡◌, IfOk, OnOk, All, length};
ghost use Rattle.grammar_image.specs.Lasts.{AddsLasts, AreLastsBelow};

use chart_grammar::Last;
use fst_core::{Machine, Out};
use indexmap::IndexSet;
use std::alloc::Global;
use text_base::NoMemory;

/// Adds what is put out at the end in the state with this number.
fn add_lasts(lasts: &mut Vec<Last>, state: u64, mut outs: Vec<Vec<Out>>) -> Result<(), NoMemory>
    ensures { OnOk result (AddsLasts lasts.old.items lasts.new.items state outs.items) }
{
    while let Some(out) = outs.pop() {
        lasts.push(Last { state, out })?;
    }
    Ok(())
}

/// What the machine puts out at the ends in all these states.
pub fn lasts_of<M: Machine>(
    alloc: Global,
    machine: &M,
    states: &IndexSet<M::State>,
) -> Result<Vec<Last>, NoMemory>
    requires { All (M.gives machine.now) states.now.keys }
    ensures { IfOk result
        (λ lasts. AreLastsBelow (M.ends machine.now) states.now.keys (length states.now.keys)
        lasts.items) }
{
    let mut lasts = Vec::new(alloc);
    for (number, state) in states.as_slice().iter().enumerate() {
        let outs = machine.last(alloc, state)?;
        add_lasts(&mut lasts, number as u64, outs)?;
    }
    Ok(lasts)
}
