//! The laws. Each function does nothing, and stands for the law that its contract states.

ghost use Rattle.page_model.specs.ReadingLaws.{EachIsRead, NothingElse};

/// Each lawful piece is read where it stands, whatever stands behind it.
pub fn each_is_read()
    ensures { EachIsRead }
{}

/// What is read is a lawful piece, and stands there.
pub fn nothing_else()
    ensures { NothingElse }
{}
