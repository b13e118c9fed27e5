//! Values of a script as plain data, and what every operation does with them: the definitions that
//! contracts above cite.
//! Promise: `numeric_of` is `numeric` of specs/Numeric, which the law `numeric_texts` ties to the
//! manual's grammar (specs/Grammar).
//! Used by php_values, value_operations, builtin_meaning, script_meaning and others.
#![tactic(auto)]

mod fault;
mod integers;
mod laws;
mod numeric;

pub use fault::Fault;
pub use integers::{canonical_integer, decimal};
pub use laws::numeric_texts;
pub use numeric::{Numeric, numeric_of, skip_blanks, without_sign};
