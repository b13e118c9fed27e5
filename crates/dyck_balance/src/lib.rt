//! Sums of page tokens by nesting alone (`Nesting`, a `Summary` of tag_sums): which tags are open.
//! Promise: a sum is whole exactly where the tokens are those of a tree (`whole_is_nested`:
//! `WholeIsNested` of specs/Laws, over `IsNested` of tag_sums).
//! Used by page_decision, broken_readers, policy_matching, short_page and others.
#![tactic(auto)]

mod join;
mod laws;
mod sum;
mod summary;

pub use laws::whole_is_nested;
pub use sum::NestingSum;
pub use summary::Nesting;
