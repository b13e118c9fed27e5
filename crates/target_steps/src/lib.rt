//! The law of the reader of a page (page_steps) behind `<?`. Promise: each instruction is read to
//! its end, `xml` and white space lead into the XML declaration where one may stand, and nothing
//! else is read to an end (`TargetsRead` of specs/Laws). No code stands here.
//! Used by: page_reads, front_laws.
#![tactic(auto)]

pub mod laws;
