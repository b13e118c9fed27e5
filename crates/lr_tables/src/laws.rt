//! Laws of tables that pass the check, each the contract of a function with an empty body.

ghost use Rattle.lr_tables.specs.Laws.{IsSound, IsComplete, IsPlaced, IsOnePlace};

/// What is read by tables is derived by their grammar.
pub fn what_is_read_is_derived()
    ensures { IsSound }
{}

/// What is derived by the grammar of checked tables is read by them.
pub fn what_is_derived_is_read()
    ensures { IsComplete }
{}

/// Where checked tables stop is the first token that no sentence goes on with.
pub fn where_it_stops_is_first_wrong()
    ensures { IsPlaced }
{}

/// There is one first token at most that no sentence goes on with.
pub fn first_wrong_is_one()
    ensures { IsOnePlace }
{}
