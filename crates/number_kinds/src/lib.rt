//! Kinds of the numbers of character references (XML 1.0, 4.1).
//! Promise: two numbers of one base are of one kind exactly where the same digits behind them, or
//! none, make both characters of XML or neither, and the kind leads on by digits (`kinds_lead_on`,
//! over `DecimalKinds` and `HexadecimalKinds` of specs/Laws).
//! Used by: merged_reader.
#![tactic(auto)]

mod kinds;
pub mod laws;
mod rows;

pub use kinds::{decimal_kind, hexadecimal_kind};
