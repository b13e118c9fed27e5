//! The laws.

ghost use Rattle.std.specs.Prelude.{◌≡◌, ℕ, List, Option, Some, Ok, All};
ghost use Rattle.plain_values.specs.Plain.{Plain, PlainKey, Pairs, int, text, array, empty};
ghost use Rattle.plain_values.specs.Text.{text_of};
ghost use Rattle.plain_values.specs.Arithmetic.{sum_of, difference_of, product_of, remainder_of, quotient_of, negation_of, increment_of, decrement_of};
ghost use Rattle.plain_values.specs.Joins.{join_of, appended_to};
ghost use Rattle.plain_values.specs.Lawful.{IsValue, IsKey, HasValues};
ghost use Rattle.plain_values.specs.Paths.{Step, subscript_of, path_of, write, literal_of};
ghost use Rattle.plain_values.specs.Walks.{value_of_key};
ghost use Rattle.builtin_meaning.specs.declared.builtin.Builtin.{Builtin};
ghost use Rattle.builtin_meaning.specs.Values.{builtin_value};
ghost use Rattle.function_laws.specs.Parts.{IsMaybeValue, IsItem};

/// The results of arithmetic are integers of 64 bits.
pub fn arithmetic()
    ensures sum { (a b v : Plain) → sum_of a b ≡ Ok v → IsValue v }
    ensures difference { (a b v : Plain) → difference_of a b ≡ Ok v → IsValue v }
    ensures product { (a b v : Plain) → product_of a b ≡ Ok v → IsValue v }
    ensures remainder { (a b v : Plain) → IsValue a → IsValue b → remainder_of a b ≡ Ok v
        → IsValue v }
    ensures quotient { (a b v : Plain) → quotient_of a b ≡ Ok v → IsValue v }
    ensures negation { (a v : Plain) → negation_of a ≡ Ok v → IsValue v }
    ensures increment { (a v : Plain) → increment_of a ≡ Ok v → IsValue v }
    ensures decrement { (a v : Plain) → decrement_of a ≡ Ok v → IsValue v }
{}

/// Joined texts are within the limit, and so is the text form of a value.
pub fn joins()
    ensures join { (vs : List Plain) (v : Plain) → join_of vs ≡ Ok v → IsValue v }
    ensures append { (a b v : Plain) → appended_to a b ≡ Ok v → IsValue v }
    ensures form { (v : Plain) → IsValue v → IsValue (text (text_of v)) }
{}

/// A member of a value, and a key of one, are values.
pub fn members()
    ensures subscript { (v k u : Plain) → IsValue v → subscript_of v k ≡ Ok u → IsValue u }
    ensures key { (k : PlainKey) → IsKey k → IsValue (value_of_key k) }
{}

/// Array literals and writes give values.
pub fn writes()
    ensures literal { (items : List (Option Plain × Plain)) (v : Plain) → All IsItem items
        → literal_of items ≡ Ok v → IsValue v }
    ensures write { (ks : List (Option Plain)) (path : List Step) (new old v : Plain)
        → All IsMaybeValue ks → path_of ks ≡ Ok path
        → IsValue new → IsValue old → write path new old ≡ Ok v → IsValue v }
{}

/// The functions of PHP give values.
pub fn functions()
    ensures { (f : Builtin) (args : List Plain) (v : Plain) → All IsValue args
        → builtin_value f args ≡ Ok v → IsValue v }
{}
