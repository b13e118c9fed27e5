//! The laws. Each function does nothing, and stands for the law that its contract states.

ghost use Rattle.front_laws.specs.Laws.{FailedAreBad, FrontsLead, SameFronts};

/// A front of a page that is not bad is the state of the reader behind it.
pub fn fronts_lead()
    ensures { FrontsLead }
{}

/// So two texts with one such front lead to one state.
pub fn same_fronts()
    ensures { SameFronts }
{}

/// Where the reader has failed, the front is bad.
pub fn failed_are_bad()
    ensures { FailedAreBad }
{}
