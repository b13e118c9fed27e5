//! The laws. Each function does nothing, and stands for the law that its contract states.

ghost use Rattle.remark_steps.specs.Laws.{CommentsLeft, SectionsLeft, InstructionsLeft};

/// A comment is left exactly at its end (XML 1.0, 2.5).
pub fn comments_left()
    ensures { CommentsLeft }
{}

/// A CDATA section is left exactly at its end (XML 1.0, 2.7).
pub fn sections_left()
    ensures { SectionsLeft }
{}

/// An instruction is left exactly at its end, behind its target and white space (XML 1.0, 2.6).
pub fn instructions_left()
    ensures { InstructionsLeft }
{}
