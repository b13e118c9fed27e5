//! Laws of the definitions, as functions that do nothing.

ghost use Rattle.dyck_balance.specs.Laws.{WholeIsNested};

/// A list of tokens is whole exactly where it is that of a tree.
pub fn whole_is_nested()
    ensures { WholeIsNested }
{}
