//! One step of cutting.

use lexical_grammar::fault::LexicalFault;
use php_syntax::token::TokenKind;

/// Outside PHP or inside it.
#[derive(Clone, Copy, Debug)]
pub enum Mode {
    Outside,
    Inside,
}

/// What stands at the head of the bytes: so many bytes, which give this token or none, and the
/// mode behind them; or a fault, so many bytes on.
#[derive(Debug, Drop)]
pub enum Step {
    Goes(Option<TokenKind>, usize, Mode),
    Refuses(LexicalFault, usize),
}
