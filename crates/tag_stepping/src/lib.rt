//! One character more in a tag or in the XML declaration of a page, in memory, by a definition with
//! its names indexed. Promise: `tag_name_move`, `tag_move`, `empty_move` and `end_tag_move` are,
//! through `plain_move` of remark_stepping, the functions of the same names in page_steps
//! (specs/PageSteps there), and `declaration_move` is `declaration_by` there.
//! Used by: page_stepping.
#![tactic(auto)]

mod declarations;
mod element;
mod end_tags;
mod finding;
mod tags;

pub use declarations::declaration_move;
pub use end_tags::end_tag_move;
pub use tags::{empty_move, tag_move, tag_name_move};
