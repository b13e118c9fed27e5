//! Expressions over bytes and their derivatives; in an arena each stands once, and has one number.
//! Promise: `derivative` gives the number of what a byte leaves of an expression (`IsMade` of
//! specs/Standing, `after` of specs/Derivatives), which matches exactly what may follow the byte
//! (`IsDerivative` of specs/Laws), and is `nothing` where nothing may (`FailsAtOnce`).
//! Used by page_forms, byte_forms, page_policy, way_reader and others.
#![tactic(auto)]

mod answering;
mod arena;
mod ask;
mod ending;
mod laws;
mod making;
mod node;
mod nodes;
mod stepping;
mod steps;

pub use arena::Arena;
pub use laws::{
    bytes_of_a_class_have_one_derivative, derivatives_by_texts_match_what_follows,
    derivatives_match_what_follows, derivatives_stay_normal, full_expressions_match_some_text,
    normal_forms_match_as_plain_ones, numbers_go_on_to_stand, only_nothing_fails,
    what_fails_fails_at_once, what_is_made_stays_normal, what_may_end_matches_the_empty_text,
};
pub use node::Node;
pub use steps::Steps;
