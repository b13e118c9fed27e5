//! The tokens of a script (PHP manual, "Basic syntax", "Types: Strings", "Operators").

ghost use Rattle.std.specs.Prelude.{◌≡◌, ◌<◌, length};
ghost use Rattle.php_syntax.specs.Spelling.{spelling_of};

use text_base::Bytes;

/// A token, and the place in the file, in bytes from 0, where its spelling begins.
#[derive(Debug, Drop)]
pub struct Token {
    pub kind: TokenKind,
    pub at: u32,
}

/// What a token is.
#[derive(Debug, Drop)]
pub enum TokenKind {
    /// The bytes outside PHP between two openers, never empty.
    Inline(Bytes),
    /// A variable: the name behind its `$`.
    Var(Bytes),
    /// A name or a keyword, as it is spelled. `<?=` gives the name `echo`.
    Name(Bytes),
    /// An integer literal, from 0 to 9,223,372,036,854,775,807.
    Int(i64),
    /// A quoted text, a heredoc or a nowdoc in which no variable is read: the bytes that it stands
    /// for.
    Str(Bytes),
    /// A quoted text or a heredoc in which a variable is read: its parts in order. No two plain
    /// parts stand side by side, and none is empty.
    Template(Vec<Part>),
    /// A sign or a cast. `?>` gives the semicolon.
    Sign(Sign),
}

/// A part of a template.
#[derive(Debug, Drop)]
pub enum Part {
    /// Bytes that stand for themselves, with the escapes replaced.
    Plain(Bytes),
    /// A variable that is read, and the keys by which its members are taken, the outermost first.
    Read(Bytes, Vec<PartKey>),
}

/// A key in a template.
#[derive(Debug, Drop)]
pub enum PartKey {
    /// A name or a quoted text.
    Text(Bytes),
    /// An integer literal.
    Int(i64),
    /// The variable of this name.
    Var(Bytes),
}

/// The signs of the language and the two casts.
#[derive(Clone, Copy, Debug, PartialEq, Eq)]
pub enum Sign {
    /// `===`
    Identical,
    /// `!==`
    NotIdentical,
    /// `??=`
    CoalesceAssign,
    /// `==`
    Equal,
    /// `!=`
    NotEqual,
    /// `<>`
    LessGreater,
    /// `<=`
    LessEqual,
    /// `>=`
    GreaterEqual,
    /// `=>`
    DoubleArrow,
    /// `&&`
    And,
    /// `||`
    Or,
    /// `??`
    Coalesce,
    /// `.=`
    JoinAssign,
    /// `+=`
    AddAssign,
    /// `-=`
    SubAssign,
    /// `*=`
    MulAssign,
    /// `%=`
    RemAssign,
    /// `++`
    Increment,
    /// `--`
    Decrement,
    /// `=`
    Assign,
    /// `<`
    Less,
    /// `>`
    Greater,
    /// `!`
    Not,
    /// `.`
    Dot,
    /// `+`
    Plus,
    /// `-`
    Minus,
    /// `*`
    Star,
    /// `%`
    Percent,
    /// `?`
    Question,
    /// `:`
    Colon,
    /// `,`
    Comma,
    /// `;`
    Semicolon,
    /// `(`
    OpenParen,
    /// `)`
    CloseParen,
    /// `[`
    OpenBracket,
    /// `]`
    CloseBracket,
    /// `{`
    OpenBrace,
    /// `}`
    CloseBrace,
    /// `(int)`, in any case and with blanks inside the brackets
    CastInt,
    /// `(string)`, likewise
    CastString,
}

impl Sign {
    /// The spelling of the sign, and for a cast its shortest one.
    pub fn spelling(self) -> &'static [u8]
        ensures value { result.now ≡ spelling_of self }
        ensures some { 0 < length result.now }
    {
        match self {
            Sign::Identical => b"===",
            Sign::NotIdentical => b"!==",
            Sign::CoalesceAssign => b"??=",
            Sign::Equal => b"==",
            Sign::NotEqual => b"!=",
            Sign::LessGreater => b"<>",
            Sign::LessEqual => b"<=",
            Sign::GreaterEqual => b">=",
            Sign::DoubleArrow => b"=>",
            Sign::And => b"&&",
            Sign::Or => b"||",
            Sign::Coalesce => b"??",
            Sign::JoinAssign => b".=",
            Sign::AddAssign => b"+=",
            Sign::SubAssign => b"-=",
            Sign::MulAssign => b"*=",
            Sign::RemAssign => b"%=",
            Sign::Increment => b"++",
            Sign::Decrement => b"--",
            Sign::Assign => b"=",
            Sign::Less => b"<",
            Sign::Greater => b">",
            Sign::Not => b"!",
            Sign::Dot => b".",
            Sign::Plus => b"+",
            Sign::Minus => b"-",
            Sign::Star => b"*",
            Sign::Percent => b"%",
            Sign::Question => b"?",
            Sign::Colon => b":",
            Sign::Comma => b",",
            Sign::Semicolon => b";",
            Sign::OpenParen => b"(",
            Sign::CloseParen => b")",
            Sign::OpenBracket => b"[",
            Sign::CloseBracket => b"]",
            Sign::OpenBrace => b"{",
            Sign::CloseBrace => b"}",
            Sign::CastInt => b"(int)",
            Sign::CastString => b"(string)",
        }
    }
}
