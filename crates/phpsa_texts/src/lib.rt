//! The texts that the program writes, each with the status that it comes with, and its answers as
//! JSON: one function for each text.
//! Promise: each gives a `Message` of exactly its status and text (`Says` of specs/Texts) or a
//! `Refusal` that tells them (`IsTold`); `yes_json` and its like give those of specs/JsonAnswers.
//! Used by: phpsa_tasks, phpsa_main, phpsa, check_rows.
#![tactic(auto)]

mod answers;
mod definitions;
mod exit;
mod json_answers;
mod lines;
mod message;
mod options;
mod other_refusals;
mod programs;
mod runs;
mod shown;
mod telling;
mod words;

pub use answers::{
    AnswerForm, Conclusion, PassedCount, judgment_message, many_states_message, no_message,
    passed_message, site_message, summary_message, yes_message,
};
pub use definitions::{definition_refusal, states_refusal};
pub use exit::Exit;
pub use json_answers::{items_json, no_json, short_sums_json, sums_json, yes_json};
pub use lines::{NO_MEMORY, WRITE_FAULT};
pub use message::{Message, Refusal};
pub use options::options_refusal;
pub use other_refusals::{
    file_refusal, list_refusal, long_text_refusal, policy_refusal, request_refusal, size_refusal,
};
pub use programs::load_refusal;
pub use runs::{deep_message, fault_message, spent_message};
pub use shown::{NAME_LIMIT, shown_name, shown_names_are_printable};
pub use words::{help_message, usage_refusal, version_message, words_refusal};
