//! The law. The function does nothing, and stands for the law that its contract states.

ghost use Rattle.target_steps.specs.Laws.{TargetsRead};

/// Instructions, and the beginning of an XML declaration (XML 1.0, 2.6 and 2.8).
pub fn targets_read()
    ensures { TargetsRead }
{}
