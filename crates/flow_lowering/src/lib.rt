//! What the lowering of programs to points stands on: a list of points that grows, what names stand
//! for in a function, and pieces of expressions and statements that evaluate nothing themselves.
//! Promise: what puts points says which ones stand behind the others (`Puts`, `Sets` and `Emits` of
//! specs/Emits, `Drafts` and `EndsLoop` of specs/Blocks).
//! Used by: program_lowering, expression_lowering.
#![tactic(auto)]

mod builder;
pub mod builtins;
pub mod choices;
mod exits;
mod functions;
mod heads;
pub mod rows;
mod scope;
pub mod values;
mod ways;
pub mod writes;

pub use builder::{PointBuilder, Reserved};
pub use exits::{Exit, fill_exits, put_break, put_continue, put_jump};
pub use heads::{Head, begin_test, begin_walk, end_loop};
pub use scope::FunctionScope;
pub use ways::Ways;
