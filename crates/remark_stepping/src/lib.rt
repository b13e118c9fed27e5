//! One character more in a comment, a section or an instruction of a page, in memory, and where a
//! character leads (`PageMove`). Promise: each call is, through `plain_move` of specs/Views, the
//! function of the same name in page_steps (specs/PageSteps there); `declaration_end` is what may
//! stand behind the last `?` of the XML declaration.
//! Used by: tag_stepping, opener_stepping, target_stepping, byte_stepping, page_stepping.
#![tactic(auto)]

mod page_move;
mod remarks;

pub use page_move::PageMove;
pub use remarks::{comment_move, declaration_end, instruction_move, remark_end, section_move};
