//! One byte of a class, as an expression over bytes.
//! Promise: `class_form` makes the expression of the bytes of a class below a bound, neighbours as
//! one range (`ranges_below` of specs/Ranges), which matches exactly one such byte
//! (`a_byte_is_matched`).
//! Used by: page_forms, coarse_forms, page_policy.
#![tactic(auto)]

mod class;
mod forming;
mod laws;

pub use class::ByteClass;
pub use forming::class_form;
pub use laws::a_byte_is_matched;
