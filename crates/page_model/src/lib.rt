//! Pages of XHTML as definitions: their pieces, trees, tokens and fronts, and which are valid.
//! Promise: bytes have at most one cutting and one list of tokens (`one_cutting`,
//! `one_token_list`), and a page is `Valid` (specs/Valid) exactly where its tokens are those of a
//! tree (`valid_by_tokens`, over `TokenTree` of specs/TokenTree).
//! Used by page_lexer, page_steps, reference_steps, remark_steps and others.
#![tactic(auto)]

mod laws;
mod reading_laws;

pub use laws::{one_cutting, one_page, one_token_list, valid_by_pieces, valid_by_tokens};
pub use reading_laws::{each_is_read, nothing_else};
