//! Reading pieces a symbol at a time, whatever the pieces are: readers (specs/Readers), languages
//! of pieces (specs/Languages), and what is owed for the forms of pieces (`Reads` of specs/Reads).
//! Promise, as lemmas, since a clause does not speak of all types: a reader that reads the pieces
//! of a language puts out exactly the tokens of a text (`tokens_are_read` of proofs/Whole).
//! Used by byte_readers, character_steps, page_steps, reference_steps and others.
#![tactic(auto)]
