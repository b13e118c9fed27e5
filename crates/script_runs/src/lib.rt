//! Runs a program for a request within a number of units; nothing in it calls itself, however deep
//! the calls of the script are.
//! Promise: what `run` prints and how the run ends are exactly what `meaning` of script_meaning
//! says, for each number of units (`plain_outcome` of specs/Outcomes); only want of memory refuses.
//! Used by: phpsa_main, run_bench.
#![tactic(auto)]

mod binding;
pub mod calls;
pub mod ended;
mod flows;
pub mod frames;
mod heads;
mod paying;
mod returning;
mod running;
mod settling;
mod statements;
mod values;
pub mod wants;

pub use calls::{Call, Caller, Pending};
pub use ended::Ended;
pub use flows::hand_on;
pub use frames::{End, Flow, Looping, Next, Task, Wait, Walking};
pub use paying::go_on;
pub use running::run;
pub use settling::settle;
pub use statements::{begin, is_include};
pub use values::give;
pub use wants::{Settled, Wanted};
