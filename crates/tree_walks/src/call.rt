//! A call of a function.

use text_base::Bytes;

/// A call: the function's name in lower case, and how many arguments are handed in.
#[derive(Debug, Drop)]
pub struct Call {
    pub name: Bytes,
    pub arguments: usize,
}
