//! Which trees some file spells, as a test (`is_spellable` of specs/Spellable), and the marks that
//! a writer of scripts writes (specs/Marks).
//! Promise: a tree that some file spells is spellable (the lemma `spelled_is_spellable` of
//! proofs/BackFiles); php_writer proves the other direction.
//! Used by program_rules, php_writer, tree_walks, program_files and others.
#![tactic(auto)]
