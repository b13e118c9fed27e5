//! Rows by numbers.

use op_system::Op;
use text_base::Bytes;

/// How texts of a set are made of those of others, which stand here by their nonterminals.
#[derive(Debug, Drop)]
pub enum RowForm {
    /// One text.
    Text(Bytes),
    /// Each text of another set.
    Same(u64),
    /// A text of each, joined.
    Join(u64, u64),
    /// A text before each of another set.
    Before(Bytes, u64),
    /// Each text that the request may bring.
    Request,
    /// Each integer's text.
    Integer,
    /// Each output of an operation on a text of another set.
    Apply(Op, u64),
    /// Of a set that only says yes or no: yes.
    Yes,
    /// One text, where another set says yes.
    Where(Bytes, u64),
}
