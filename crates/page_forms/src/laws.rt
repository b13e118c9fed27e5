//! The laws. Each function does nothing, and stands for the law that its contract states.

ghost use Rattle.page_forms.specs.Laws.{BlanksAreSpelled, BracketIsSpelled, CommentsAreSpelled, DeclarationsAreSpelled, DoctypesAreSpelled, EmptyTagsAreSpelled, EndTagsAreSpelled, FormsAreNormal, InstructionsAreSpelled, MarkIsSpelled, NoneGoesOn, PiecesAreSpelled, ReferencesAreSpelled, SectionsAreSpelled, StartTagsAreSpelled, TextIsSpelled};

/// Comments (XML 1.0, 2.5).
pub fn comments_are_spelled()
    ensures { CommentsAreSpelled }
{}

/// CDATA sections (XML 1.0, 2.7).
pub fn sections_are_spelled()
    ensures { SectionsAreSpelled }
{}

/// Instructions (XML 1.0, 2.6).
pub fn instructions_are_spelled()
    ensures { InstructionsAreSpelled }
{}

/// References (XML 1.0, 4.1).
pub fn references_are_spelled()
    ensures { ReferencesAreSpelled }
{}

/// Document type declarations (XML 1.0, 2.8).
pub fn doctypes_are_spelled()
    ensures { DoctypesAreSpelled }
{}

/// XML declarations (XML 1.0, 2.8).
pub fn declarations_are_spelled()
    ensures { DeclarationsAreSpelled }
{}

/// White space (XML 1.0, 2.3).
pub fn blanks_are_spelled()
    ensures { BlanksAreSpelled }
{}

/// The character `]` (XML 1.0, 2.4).
pub fn bracket_is_spelled()
    ensures { BracketIsSpelled }
{}

/// Other characters of text (XML 1.0, 2.4).
pub fn text_is_spelled()
    ensures { TextIsSpelled }
{}

/// The byte order mark (XML 1.0, 4.3.3).
pub fn mark_is_spelled()
    ensures { MarkIsSpelled }
{}

/// End tags (XML 1.0, 3.1).
pub fn end_tags_are_spelled()
    ensures { EndTagsAreSpelled }
{}

/// Start tags (XML 1.0, 3.1 and 3.3).
pub fn start_tags_are_spelled()
    ensures { StartTagsAreSpelled }
{}

/// Tags of empty elements (XML 1.0, 3.1 and 3.3).
pub fn empty_tags_are_spelled()
    ensures { EmptyTagsAreSpelled }
{}

/// All pieces that may stand at a place.
pub fn pieces_are_spelled()
    ensures { PiecesAreSpelled }
{}

/// Where a form has ended, none goes on.
pub fn none_goes_on()
    ensures { NoneGoesOn }
{}

/// The forms are in normal form.
pub fn forms_are_normal()
    ensures { FormsAreNormal }
{}
