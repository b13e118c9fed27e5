//! The laws. Each function does nothing, and stands for the law that its contract states.

ghost use Rattle.tag_steps.specs.Laws.{EndTagsRead, StartTagsRead};

/// Start tags and the tags of empty elements (XML 1.0, 3.1).
pub fn start_tags_read()
    ensures { StartTagsRead }
{}

/// End tags (XML 1.0, 3.1).
pub fn end_tags_read()
    ensures { EndTagsRead }
{}
