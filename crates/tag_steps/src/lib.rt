//! Laws of the reader of a page (page_steps) in tags. Promise: behind the first character of a name
//! the reader comes to an end exactly behind a start tag, or the tag of an empty element, that is
//! as declared (`StartTagsRead` of specs/Laws); behind `</`, exactly behind an end tag of a
//! declared element (`EndTagsRead`). No code stands here.
//! Used by: page_reads.
#![tactic(auto)]

pub mod laws;
