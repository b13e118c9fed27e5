//! The laws. Each function does nothing, and stands for the law that its contract states.

ghost use Rattle.way_reader.specs.Laws.{PagesAreRead, PutsTheSame, WaysAreRead, WholeFormsHaveTexts};

/// Where pieces begin in ways that have the texts of the forms, the reader reads the pieces of a
/// page and nothing else.
pub fn ways_are_read()
    ensures { WaysAreRead }
{}

/// So in memory it puts out the tokens of each page.
pub fn pages_are_read()
    ensures { PagesAreRead }
{}

/// Ways that are the forms as a whole, each by the number of its expression, have their texts.
pub fn whole_forms_have_texts()
    ensures { WholeFormsHaveTexts }
{}

/// Whatever the ways are, in memory the reader puts out what it puts out as one of pieces.
pub fn puts_the_same()
    ensures { PutsTheSame }
{}
