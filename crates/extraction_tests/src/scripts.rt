//! The grammar of the loose pages of a script.

use cfg_grammar::Grammar;
use extraction::extract;
use flow_code::FlowProgram;
use io_edge::MemFiles;
use program_loader::load;
use program_lowering::lower;
use resolving::resolve;
use std::alloc::Global;
use text_base::{Bytes, NoMemory};

/// A source of `t.php` with this text.
pub fn script(alloc: Global, text: &str) -> Result<MemFiles, NoMemory> {
    let mut held = Vec::new(alloc);
    let name = Bytes::from_slice(alloc, b"t.php")?;
    let text = Bytes::from_slice(alloc, text.as_bytes())?;
    held.push((name, text))?;
    Ok(MemFiles::new(held, Vec::new(alloc)))
}

/// The points of the script of a source.
pub fn points_of(alloc: Global, source: &mut MemFiles) -> Option<FlowProgram> {
    let program = load(alloc, source, ".", "t.php", None).ok()?;
    lower(alloc, &program).ok()
}

// The grammar of the loose pages of a program.
fn grammar_of(alloc: Global, flow: &FlowProgram) -> Option<Grammar> {
    let system = extract(alloc, flow).ok()?;
    resolve(alloc, &system, 100_000).ok()
}

/// The grammar of the loose pages of a script, where it is read and memory is ample.
pub fn pages_of(alloc: Global, text: &str) -> Result<Option<Grammar>, NoMemory> {
    let mut source = script(alloc, text)?;
    let Some(flow) = points_of(alloc, &mut source) else {
        return Ok(None);
    };
    Ok(grammar_of(alloc, &flow))
}

/// How many nonterminals the system of a script has, and how many productions and operations
/// together, where it is read and memory is ample.
pub fn counts_of(alloc: Global, text: &str) -> Result<Option<(u64, usize)>, NoMemory> {
    let mut source = script(alloc, text)?;
    let Some(flow) = points_of(alloc, &mut source) else {
        return Ok(None);
    };
    let system = extract(alloc, &flow)?;
    let rules = system
        .grammar
        .productions
        .len()
        .saturating_add(system.ops.len());
    Ok(Some((system.grammar.count, rules)))
}
