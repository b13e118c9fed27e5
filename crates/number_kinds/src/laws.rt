//! The law. The function does nothing, and stands for the law that its contract states.

ghost use Rattle.number_kinds.specs.Laws.{DecimalKinds, HexadecimalKinds};

/// What holds of the kinds of either base.
pub fn kinds_lead_on()
    ensures decimal { DecimalKinds }
    ensures hexadecimal { HexadecimalKinds }
{}
