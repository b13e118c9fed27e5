//! The law. The function does nothing, and stands for the law that its contract states.

ghost use Rattle.doctype_steps.specs.Laws.{DoctypesLeft};

/// A document type declaration is left exactly at its end (XML 1.0, 2.8; XHTML 1.0, 3.1.1).
pub fn doctypes_left()
    ensures { DoctypesLeft }
{}
