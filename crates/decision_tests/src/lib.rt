//! Tests of the decision: of summary_decision, page_decision, policy_matching, tag_sums and
//! segment_summary.
//! Answers over grammars that are made by hand and over drawn ones beside a plain listing, the
//! derivation of a no node by node, which token lists are whole, and what is trimmed and written.
//! Used by: none; it stands at the top.
#![tactic(auto)]

#[cfg(test)]
mod against_listing;
#[cfg(test)]
mod by_hand;
#[cfg(test)]
mod derivations_of;
#[cfg(test)]
mod generated;
#[cfg(test)]
mod grammars;
#[cfg(test)]
mod listing;
#[cfg(test)]
mod patterns;
#[cfg(test)]
mod shown;
mod sums;
#[cfg(test)]
mod texts;
#[cfg(test)]
mod there_and_back;
#[cfg(test)]
mod two_pages;
#[cfg(test)]
mod written;
