//! What is collected in the expressions of a program, as definitions: of each expression its own,
//! and then what is collected in its parts from the left (`collected` of specs/Collected). It has
//! no call: by the lemmas of proofs/CollectedLemmas, a state that takes up each expression in turn
//! takes up the whole list.
//! Used by program_rules, tree_walks, include_expansion, flow_code and others.
#![tactic(auto)]
