//! Programs as points, function by function and statement by statement, where each text literal is
//! within the limit of a run.
//! Promise: `lower` gives exactly the points of the program (`flat` of flow_code); their ended runs
//! are those of the program (`runs`, `back`), and `LongText` has its cause (specs/Short).
//! Used by script_decision, loose_grammar, phpsa_tasks, phpsa_main and others.
#![tactic(auto)]

mod alone;
mod bodies;
mod function_variables;
mod functions;
mod literal_texts;
mod program;
mod program_literals;
mod statements;
mod variable_names;

pub use function_variables::variables_of;
pub use functions::lower_functions;
pub use program::lower;
pub use program_literals::literals_are_short;
pub use statements::lower_stmts;
