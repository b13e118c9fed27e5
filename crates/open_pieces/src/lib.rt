//! What a page that is cut at any byte has open, as values in memory that can be copied, compared
//! and hashed. Promise: each value stands for one of page_model and page_steps (`plain_open`,
//! `plain_state` and `plain_held` of specs/Views), and two that `==` finds equal are one
//! (`exact_piece`, `exact_state` and `exact_held` of specs/OpenExactness and specs/StateExactness).
//! Used by remark_stepping, byte_stepping, page_reader, merged_reader and others.
#![tactic(auto)]

mod attribute;
mod characters;
mod doctype;
mod name_list;
mod open;
mod state;
mod value;

pub use attribute::OpenAttribute;
pub use characters::Characters;
pub use doctype::{DoctypeWord, OpenDoctype};
pub use name_list::NameList;
pub use open::OpenPiece;
pub use state::{HeldState, PagePlace, PageState};
pub use value::{OpenReference, OpenValue};
