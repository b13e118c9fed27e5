//! What a first byte can begin inside PHP.

ghost use Rattle.std.specs.Prelude.{◌≡◌, ◌∷◌, ℕ, List, false};
ghost use Rattle.lexical_grammar.specs.Characters as chars;
ghost use Rattle.lexical_grammar.specs.Cuts.{lexeme_step};
ghost use Rattle.php_lexer.specs.Leads.{led_step};

use lexical_grammar::{is_blank, is_digit, is_name_start};

/// What a first byte can begin inside PHP.
#[derive(Clone, Copy, Debug)]
pub enum Lead {
    /// A blank.
    Blank,
    /// A name.
    Name,
    /// A variable.
    Variable,
    /// A number.
    Number,
    /// A text in single quotes.
    SingleQuote,
    /// A text in double quotes.
    DoubleQuote,
    /// A comment of one line or of several.
    Slash,
    /// A comment of one line.
    Sharp,
    /// The tag that leaves PHP, or a sign.
    QuestionMark,
    /// A heredoc, a nowdoc or a sign.
    LessThan,
    /// A cast or a bracket.
    Bracket,
    /// A float or a sign.
    Point,
    /// A sign, or nothing.
    Other,
}

// What such a byte can begin, where it begins no blank, name or number.
fn lead_of_mark(byte: u8) -> Lead
    requires name { chars.is_name_start byte ≡ false }
    requires blank { chars.is_blank byte ≡ false }
    requires digit { chars.is_digit byte ≡ false }
    ensures { (rest : List ℕ) → lexeme_step (byte ∷ rest) ≡ led_step result (byte ∷ rest) }
{
    match byte {
        b'$' => Lead::Variable,
        b'\'' => Lead::SingleQuote,
        b'"' => Lead::DoubleQuote,
        b'/' => Lead::Slash,
        b'#' => Lead::Sharp,
        b'?' => Lead::QuestionMark,
        b'<' => Lead::LessThan,
        b'(' => Lead::Bracket,
        b'.' => Lead::Point,
        _ => Lead::Other,
    }
}

/// What the byte can begin: nothing else of the lexical grammar begins with it.
pub fn lead_of(byte: u8) -> Lead
    ensures { (rest : List ℕ) → lexeme_step (byte ∷ rest) ≡ led_step result (byte ∷ rest) }
{
    if is_name_start(byte) {
        Lead::Name
    } else if is_blank(byte) {
        Lead::Blank
    } else if is_digit(byte) {
        Lead::Number
    } else {
        lead_of_mark(byte)
    }
}
