//! The lexical grammar of scripts: `Cuts` of specs/Cuts relates a file and its tokens, `Breaks` a
//! file and the place where it first breaks the grammar; with laws, and tests of single bytes.
//! Promise: a file has one token list or one fault, and never both (`one_token_list`, `one_fault`,
//! `never_both` of `laws`, `cut_or_broken` of `text_laws`).
//! Used by php_lexer, program_rules, spellable, php_writer and others.
#![tactic(auto)]

mod byte_classes;
pub mod fault;
pub mod laws;
mod spelling;
mod text_laws;

pub use byte_classes::{
    is_blank, is_digit, is_gap, is_high, is_letter, is_line_end, is_name_byte, is_name_start, lower,
};
pub use spelling::{
    integers_are_cut, names_are_cut, signs_are_cut, texts_are_cut, variables_are_cut,
};
pub use text_laws::{
    comment_ends_first, cut_or_broken, leaving_tag, line_comment_ends_first, longest_sign,
    pieces_are_the_file, places_rise, plain_double_quoted_text, quoted_text, without_opener,
};
