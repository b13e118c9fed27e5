//! The reader of pages that fails as soon as no piece can come (`narrow_reader` of specs/Passing,
//! by the test `can_end` of page_endings), and its laws. Promise: by each lawful definition it puts
//! out, for all bytes, exactly the tokens of page_model (`NarrowTokensRead` of specs/Laws), and
//! each state that it meets passes the test (`MetKept`). No code stands here.
//! Used by front_laws, exact_fronts, state_testing, page_stepping and others.
#![tactic(auto)]

pub mod laws;
