//! The law. The function does nothing, and stands for the law that its contract states.

ghost use Rattle.element_attributes.specs.Laws.{AttributesMay};

/// Attributes are those that the element may and must have exactly where, read in turn, each may
/// stand, and all that have to stand are there (XML 1.0, 3.1 and 3.3).
pub fn attributes_may()
    ensures { AttributesMay }
{}
