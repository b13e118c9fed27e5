//! The state of a page reader in memory that stands for each state of the definition (`coded_held`
//! of specs/Codes): the way back from the views of open_pieces. Promise: both stand for one another
//! (`plain_coded_held` and `coded_plain_held` of proofs/OneToOne). No code stands here.
//! Used by: page_reader, merged_reader, reader_fronts.
#![tactic(auto)]
