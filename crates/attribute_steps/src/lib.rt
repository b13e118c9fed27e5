//! Laws of page_steps on attributes, for any reader that follows `attribute_move` among them
//! (`IsAmong` of specs/Among). Promise, as lemmas, since a clause does not speak of all types of
//! states: attributes that may stand are read to their end, and what is read to an end behind them
//! are such (`over_attributes` of proofs/Over, `into_attributes` of proofs/Into).
//! Used by: element_attributes, tag_steps, target_steps, declaration_steps, page_reads, front_laws.
#![tactic(auto)]
