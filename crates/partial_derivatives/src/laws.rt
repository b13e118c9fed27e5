//! The laws. Each function does nothing, and stands for the law that its contract states.

ghost use Rattle.partial_derivatives.specs.Classes.{AreClassesInTurn};
ghost use Rattle.partial_derivatives.specs.Laws.{ByteInTurn, EndInTurn};

/// Parts may end exactly where they match the empty text.
pub fn parts_end_in_turn()
    ensures { EndInTurn }
{}

/// What a byte leaves of parts matches exactly what may follow it.
pub fn bytes_are_taken_in_turn()
    ensures { ByteInTurn }
{}

/// All bytes of a class leave the same of parts.
pub fn classes_are_taken_in_turn()
    ensures { AreClassesInTurn }
{}
