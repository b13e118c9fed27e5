//! The laws. Each function does nothing, and stands for the law that its contract states.

ghost use Rattle.page_narrowing.specs.Laws.{BeginningsTold, FirstKept, MetKept, NarrowTokensRead, StepsKeep};

/// The narrowed reader puts out exactly the tokens of a page.
pub fn narrow_tokens_read()
    ensures { NarrowTokensRead }
{}

/// Where a piece begins, the state passes.
pub fn first_kept()
    ensures { FirstKept }
{}

/// Each step of the narrowed reader leads to a state that passes.
pub fn steps_keep()
    ensures { StepsKeep }
{}

/// So each state passes that the narrowed reader is in behind some bytes of a page.
pub fn met_kept()
    ensures { MetKept }
{}

/// The test of names tells that one of them begins so; where nothing is read, that there is one.
pub fn beginnings_told()
    ensures { BeginningsTold }
{}
