//! How texts of a set are made.

use loose_sets::SetName;
use op_system::Op;
use text_base::Bytes;

/// How texts of a set are made of those of others, which stand here by their names.
#[derive(Debug, Drop)]
pub enum NamedForm {
    /// One text.
    Text(Bytes),
    /// Each text of another set.
    Same(SetName),
    /// A text of each, joined.
    Join(SetName, SetName),
    /// A text before each of another set.
    Before(Bytes, SetName),
    /// Each text that the request may bring.
    Request,
    /// Each integer's text.
    Integer,
    /// Each output of an operation on a text of another set.
    Apply(Op, SetName),
    /// Of a set that only says yes or no: yes.
    Yes,
    /// One text, where another set says yes.
    Where(Bytes, SetName),
}
