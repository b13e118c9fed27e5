//! Laws of the definitions, as functions that do nothing.

ghost use Rattle.derivations.specs.Lawful.{DerivationsDerive, LengthsAreRight};

/// What a list of nodes is a derivation of, the productions derive.
pub fn derivations_derive()
    ensures { DerivationsDerive }
{}

/// A node has the length of its sentence, or the largest `u64`.
pub fn lengths_are_right()
    ensures { LengthsAreRight }
{}
