//! The law. The function does nothing, and stands for the law that its contract states.

ghost use Rattle.declaration_steps.specs.Laws.{DeclarationsRead};

/// The XML declaration (XML 1.0, 2.8).
pub fn declarations_read()
    ensures { DeclarationsRead }
{}
