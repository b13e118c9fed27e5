//! The laws. Each function does nothing, and stands for the law that its contract states.

ghost use Rattle.page_insides.specs.Laws.{CommentsRead, DoctypesRead, InstructionsRead, ReferencesRead, SectionsRead};

/// Behind `&` (XML 1.0, 4.1).
pub fn references_read()
    ensures { ReferencesRead }
{}

/// Behind `<!--` (XML 1.0, 2.5).
pub fn comments_read()
    ensures { CommentsRead }
{}

/// Behind `<![CDATA[` (XML 1.0, 2.7).
pub fn sections_read()
    ensures { SectionsRead }
{}

/// Behind the target of an instruction and white space (XML 1.0, 2.6).
pub fn instructions_read()
    ensures { InstructionsRead }
{}

/// Behind `<!DOCTYPE` (XML 1.0, 2.8).
pub fn doctypes_read()
    ensures { DoctypesRead }
{}
