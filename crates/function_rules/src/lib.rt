//! The rules on the functions of a program, tested on its files before includes are replaced, with
//! the stubs that the program takes.
//! Promise: `check_functions` gives these stubs, and only where the files keep the rules with them
//! (`KeepFunctionRules` of program_sizes), and else tells of the first rule that is broken, with the
//! name of a function (`IsFunctionCause` of specs/Causes).
//! Used by: program_loader.
#![tactic(auto)]

mod arity;
mod calls;
mod definitions;
mod found_calls;
mod rules;
mod stubs;
mod table;

pub use arity::{Numbers, numbers_of};
pub use found_calls::calls_of;
pub use rules::check_functions;
