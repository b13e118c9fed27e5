//! The laws. Each function does nothing, and stands for the law that its contract states.

ghost use Rattle.derivatives.specs.Laws.{EndsWhereEmpty, IsDerivative, IsDerivativeByAll, MatchesAsPlain, HasSomeText, StaysNormal, MakesNormal, OnlyNothingFails, FailsAtOnce, AreClasses, GoesOn};

/// An expression may end exactly where it matches the empty text.
pub fn what_may_end_matches_the_empty_text()
    ensures { EndsWhereEmpty }
{}

/// A derivative matches exactly what may follow the byte.
pub fn derivatives_match_what_follows()
    ensures { IsDerivative }
{}

/// The same of the derivative by a text.
pub fn derivatives_by_texts_match_what_follows()
    ensures { IsDerivativeByAll }
{}

/// Normal forms match what the plain ones do.
pub fn normal_forms_match_as_plain_ones()
    ensures { MatchesAsPlain }
{}

/// Where no part is nothing and no range empty, some text is matched.
pub fn full_expressions_match_some_text()
    ensures { HasSomeText }
{}

/// Derivatives stay in normal form.
pub fn derivatives_stay_normal()
    ensures { StaysNormal }
{}

/// What is made of parts in normal form is in normal form.
pub fn what_is_made_stays_normal()
    ensures { MakesNormal }
{}

/// In normal form, only nothing matches no text.
pub fn only_nothing_fails()
    ensures { OnlyNothingFails }
{}

/// A text with which nothing begins that is matched has nothing as its derivative.
pub fn what_fails_fails_at_once()
    ensures { FailsAtOnce }
{}

/// All bytes of a class have one derivative.
pub fn bytes_of_a_class_have_one_derivative()
    ensures { AreClasses }
{}

/// Numbers go on to stand for what they stood for.
pub fn numbers_go_on_to_stand()
    ensures { GoesOn }
{}
