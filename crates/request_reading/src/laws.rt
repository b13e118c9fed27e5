//! The law of admission. The function does nothing, and stands for the law that its contract states.

ghost use Rattle.request_reading.specs.Laws.{GoesByMembers};

/// A file of the form of a request stands for it exactly where its members are those of an admitted
/// request, and else the path to a stray one is named.
pub fn outcomes_go_by_members()
    ensures { GoesByMembers }
{}
