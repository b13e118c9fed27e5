//! The laws. Each function does nothing, and stands for the law that its contract states.

ghost use Rattle.opener_steps.specs.Laws.{FirstRead, OpenersRead};

/// Where a piece begins (XML 1.0, 2.1 and 2.4).
pub fn first_read()
    ensures { FirstRead }
{}

/// Behind `<`.
pub fn openers_read()
    ensures { OpenersRead }
{}
