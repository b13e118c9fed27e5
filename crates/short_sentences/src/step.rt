//! What is read as a pair is taken up.

use crate::taken::Taken;
use numbered_sets::Chains;
use summary_decision::{Question, Uses};
use tag_sums::Summary;

/// What is read as productions make pairs: the pairs that are taken up, with chains of their places
/// by their nonterminals, and where nonterminals stand.
#[derive(Drop)]
pub(crate) struct Step<'a, 'q, S: Summary> {
    pub question: &'a Question<'q, S>,
    pub uses: &'a Uses,
    pub taken: &'a Taken,
    pub chains: &'a Chains,
}
