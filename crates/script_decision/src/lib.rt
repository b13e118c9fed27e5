//! Whether every page that a program may print is good by a goal and a document type definition.
//! Promise: `check` says `Yes` only where each loose page is good, `No` only with a derivation of
//! one that is not, a limit only where it is passed (`answer`: `IsAnswerOf` of specs/Decision);
//! after `Yes` each run for an admitted request that ends prints a good page (`sound`).
//! `check_shortest` says the same with a shortest page that is not good (`IsShortestAnswer` of
//! specs/ShortestAnswers), `decide_policy` the same of pages that fit a pattern (`IsPolicyAnswer` of
//! specs/PolicyAnswers).
//! Used by: phpsa_tasks, phpsa_main.
#![tactic(auto)]

mod answer;
mod answering;
mod deciding;
pub mod echo_laws;
pub mod laws;
mod pages;
mod policy_answer;
mod policy_deciding;
pub mod policy_laws;
mod policy_refusal;
mod reader;
mod reading;
mod refusal;
mod shortest_answer;
mod shortest_below;
mod shortest_checking;
mod shortest_deciding;
mod shortest_searching;
mod showing_answers;
mod showing_pages;
mod shown;

pub use answer::Answer;
pub use answering::answer_by;
pub use deciding::check;
pub use policy_answer::PolicyAnswer;
pub use policy_deciding::decide_policy;
pub use policy_refusal::MatchRefusal;
pub use reading::check_by;
pub use refusal::CheckRefusal;
pub use shortest_answer::ShortestAnswer;
pub use shortest_checking::check_shortest;
pub use showing_answers::check_shown;
pub use showing_pages::{PAGE_LIMIT, ShownPage, show_page};
pub use shown::ShownAnswer;
