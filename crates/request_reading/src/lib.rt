//! Reading a request file, JSON with five arrays whose texts and names are of XML's characters.
//! Promise: `read_request` gives the request that the bytes stand for, or why they are none (`ok`,
//! `err`, by `outcome` of specs/Outcome and `IsCause` of specs/Causes); `Request::array` says that
//! it is admitted (`Admitted` of script_meaning).
//! Used by: expr_evaluator, script_runs, phpsa_texts, phpsa_tasks, phpsa_main, run_bench.
#![tactic(auto)]

mod arrays;
mod form;
pub mod laws;
mod parsing;
mod reading;
mod refusal;
mod request;
mod straying;

pub use reading::read_request;
pub use refusal::RequestRefusal;
pub use request::Request;
