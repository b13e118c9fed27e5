//! From characters to bytes: a reader of pieces that goes from character to character (piece_steps)
//! makes one that goes from byte to byte of their UTF-8 (`encoded` of specs/Encoded). Promise, as a
//! lemma, since a clause does not speak of all types: it reads the same pieces by their bytes
//! (`encoded_reads` of proofs/Encoding).
//! Used by page_steps, page_step_laws, page_endings, page_narrowing and others.
#![tactic(auto)]
