//! Classes of characters.

ghost use Rattle.std.specs.Prelude.{◌≡◌};
ghost use Rattle.xml_text.specs.Characters as characters;
ghost use Rattle.xml_text.specs.Names as names;
ghost use Rattle.page_model.specs.Parts as parts;
ghost use Rattle.page_rules.specs.Views.{class_test};

/// Which characters belong together.
#[derive(Clone, Copy, Debug)]
pub enum Class {
    /// White space (XML 1.0, 2.3, S).
    Blank,
    /// All but white space.
    NotBlank,
    /// What a name may hold.
    InName,
    /// All but this one.
    Other(char),
}

impl Class {
    /// Whether the character is one of them.
    pub fn has(self, c: char) -> bool
        ensures { result ≡ class_test self c }
    {
        match self {
            Class::Blank => is_blank(c),
            Class::NotBlank => !is_blank(c),
            Class::InName => in_name(c),
            Class::Other(end) => c != end,
        }
    }
}

/// White space (XML 1.0, 2.3, S).
pub fn is_blank(c: char) -> bool
    ensures { result ≡ characters.is_blank c }
{
    c == '\t' || c == '\n' || c == '\r' || c == ' '
}

/// What a name may begin with (XML 1.0, 2.3), in ASCII.
pub fn begins_name(c: char) -> bool
    ensures { result ≡ names.begins_name c }
{
    c.is_ascii_alphabetic() || c == '_' || c == ':'
}

/// What a name or a name token may hold (XML 1.0, 2.3), in ASCII.
pub fn in_name(c: char) -> bool
    ensures { result ≡ names.in_name c }
{
    begins_name(c) || c.is_ascii_digit() || c == '.' || c == '-'
}

/// A quote of a literal (XML 1.0, 2.3).
pub fn is_quote(c: char) -> bool
    ensures { result ≡ parts.is_quote c }
{
    c == '"' || c == '\''
}

/// Whether the character may stand in a public identifier (XML 1.0, 2.3, PubidChar).
pub fn in_public_identifier(c: char) -> bool
    ensures { result ≡ names.in_public_identifier c }
{
    let is_sign = [
        '-', '\'', '(', ')', '+', ',', '.', '/', ':', '=', '?', ';', '!', '*', '#', '@', '$', '_',
        '%',
    ]
    .contains(&c);
    c == '\n' || c == '\r' || c == ' ' || c.is_ascii_alphanumeric() || is_sign
}
