//! The files of a program: a script and all that it includes, each read once, with their trees.
//! Promise: `read_files` gives them in the order of their includes, with each include by its found
//! name, each asked for once (`ReadsAll` of specs/Causes), or the cause and the name at which
//! reading stopped (`IsReadCause`); `read_stubs` the functions of a file of stubs (`ReadsStubs` of
//! specs/Stubs), or why it is refused (`IsStubCause`).
//! Used by include_expansion, program_sizes, function_rules, program_loader and others.
#![tactic(auto)]

mod asking;
mod files;
mod includes;
mod naming;
mod places;
mod reading;
mod refusal;
mod stubs;
mod table;
mod tree;

pub use files::ScriptFiles;
pub use includes::find_includes;
pub use reading::read_files;
pub use refusal::{LoadRefusal, ScriptRefusal};
pub use stubs::read_stubs;
