//! What is to be done for what the words of the command line ask for (`Task`), and what doing it
//! means: what each task speaks of, what it replies, why it is refused, and how a call ends.
//! Promise: `asked_task` gives what words ask for (`AsksFor` of specs/Tasks). States what every
//! call keeps (`Keeps` of specs/Keeps), and in `laws` what follows of that.
//! Used by: phpsa_main.
#![tactic(auto)]

mod choice;
pub mod laws;
mod reply;
mod task;
mod words;

pub use choice::PageChoice;
pub use reply::Reply;
pub use task::{ScriptFile, Task};
pub use words::asked_task;
