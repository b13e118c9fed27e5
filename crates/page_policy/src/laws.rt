//! The laws. Each function does nothing, and stands for the law that its contract states.

ghost use Rattle.page_policy.specs.Forms.{FormsMatchWhatFits};
ghost use Rattle.page_policy.specs.Laws.{SpellOne};

/// A file spells at most one pattern.
pub fn a_file_spells_one_pattern()
    ensures { SpellOne }
{}

/// The expression of a pattern matches exactly the texts that fit it.
pub fn forms_match_what_fits()
    ensures { FormsMatchWhatFits }
{}
