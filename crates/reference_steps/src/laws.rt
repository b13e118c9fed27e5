//! The laws. Each function does nothing, and stands for the law that its contract states.

ghost use Rattle.reference_steps.specs.Laws.{ReferencesAccepted, ValuesAccepted};

/// What stands between `&` and `;` ends well exactly where it is a reference that is known (XML
/// 1.0, 4.1).
pub fn references_accepted()
    ensures { ReferencesAccepted }
{}

/// What stands in quotes ends well exactly where it is a value that the attribute may have (XML
/// 1.0, 3.3), with references that are known.
pub fn values_accepted()
    ensures { ValuesAccepted }
{}
