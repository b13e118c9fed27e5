//! The laws. Each function does nothing, and stands for the law that its contract states.

ghost use Rattle.form_reader.specs.Laws.{FailsAtOnce, FormsAreRead, PageTokensAreRead};

/// The reader reads the pieces of a page.
pub fn forms_are_read()
    ensures { FormsAreRead }
{}

/// So it puts out the tokens of a page.
pub fn page_tokens_are_read()
    ensures { PageTokensAreRead }
{}

/// No form is live exactly where no piece can come of the text.
pub fn reading_fails_at_once()
    ensures { FailsAtOnce }
{}
