//! A program with a definition.

use dtd_model::Dtd;
use program_rules::Program;

/// A program, and the definition that its pages are held against.
#[derive(Drop)]
pub(crate) struct ScriptBy {
    pub program: Program,
    pub dtd: Dtd,
}
