//! The words of the language that no function may have as its name (PHP manual, "List of
//! Keywords").

ghost use Rattle.std.specs.Prelude.{◌≡◌, Option, Some, None, map};
ghost use Rattle.std.specs.Str.{str_eq_ignore_ascii_case};
ghost use Rattle.script_grammar.specs.Terminals.{keyword_of, find_word, cased_word, first_of_two, loop_words, branch_words, jump_words, value_words};

/// A word that stands in the grammar. It is spelled in any case, but for the three constants.
#[derive(Clone, Copy, Debug, PartialEq, Eq)]
pub enum Keyword {
    /// `function`
    Function,
    /// `true`
    True,
    /// `false`
    False,
    /// `null`
    Null,
    /// `echo`
    Echo,
    /// `print`
    Print,
    /// `if`
    If,
    /// `elseif`
    ElseIf,
    /// `else`
    Else,
    /// `endif`
    EndIf,
    /// `while`
    While,
    /// `endwhile`
    EndWhile,
    /// `do`
    Do,
    /// `for`
    For,
    /// `endfor`
    EndFor,
    /// `foreach`
    Foreach,
    /// `as`
    As,
    /// `endforeach`
    EndForeach,
    /// `break`
    Break,
    /// `continue`
    Continue,
    /// `return`
    Return,
    /// `include`
    Include,
    /// `require`
    Require,
    /// `exit` or `die`
    Exit,
    /// `isset`
    Isset,
    /// `empty`
    Empty,
    /// `array`
    Array,
    /// `PHP_EOL`, in upper case
    PhpEol,
    /// `PHP_INT_MAX`, in upper case
    PhpIntMax,
    /// `PHP_INT_MIN`, in upper case
    PhpIntMin,
    /// One of the three constants in another case, which stands nowhere in the grammar.
    Miscased,
}

/// The keyword that a name spells, if it spells one.
pub fn keyword_named(name: &[u8]) -> Option<Keyword>
    ensures { result ≡ keyword_of name.now }
{
    if let Some(found) = loop_word(name) {
        return Some(found);
    }
    if let Some(found) = branch_word(name) {
        return Some(found);
    }
    if let Some(found) = jump_word(name) {
        return Some(found);
    }
    if let Some(found) = value_word(name) {
        return Some(found);
    }
    constant_word(name)
}

// Whether the name is this word, in any case.
fn is_word(name: &[u8], word: &[u8]) -> bool
    ensures { result ≡ str_eq_ignore_ascii_case name.now word.now }
{
    name.eq_ignore_ascii_case(word)
}

// The keyword of the first row whose word the name is, in any case.
fn word_in(rows: &[(&[u8], Keyword)], name: &[u8]) -> Option<Keyword>
    ensures { result ≡ find_word (map (λ row. (row.0.now, row.1)) rows.now) name.now }
{
    for (word, keyword) in rows {
        if is_word(name, word) {
            return Some(*keyword);
        }
    }
    None
}

// The words of loops, in any case.
fn loop_word(name: &[u8]) -> Option<Keyword>
    ensures { result ≡ find_word loop_words name.now }
{
    word_in(
        &[
            (b"while", Keyword::While),
            (b"endwhile", Keyword::EndWhile),
            (b"do", Keyword::Do),
            (b"for", Keyword::For),
            (b"endfor", Keyword::EndFor),
            (b"foreach", Keyword::Foreach),
            (b"as", Keyword::As),
            (b"endforeach", Keyword::EndForeach),
        ],
        name,
    )
}

// The words of branches, and those that print, in any case.
fn branch_word(name: &[u8]) -> Option<Keyword>
    ensures { result ≡ find_word branch_words name.now }
{
    word_in(
        &[
            (b"if", Keyword::If),
            (b"elseif", Keyword::ElseIf),
            (b"else", Keyword::Else),
            (b"endif", Keyword::EndIf),
            (b"echo", Keyword::Echo),
            (b"print", Keyword::Print),
        ],
        name,
    )
}

// The words that leave a body or end the run, include a file or begin a function, in any case.
fn jump_word(name: &[u8]) -> Option<Keyword>
    ensures { result ≡ find_word jump_words name.now }
{
    word_in(
        &[
            (b"break", Keyword::Break),
            (b"continue", Keyword::Continue),
            (b"return", Keyword::Return),
            (b"include", Keyword::Include),
            (b"require", Keyword::Require),
            (b"function", Keyword::Function),
            (b"exit", Keyword::Exit),
            (b"die", Keyword::Exit),
        ],
        name,
    )
}

// The words of expressions, in any case.
fn value_word(name: &[u8]) -> Option<Keyword>
    ensures { result ≡ find_word value_words name.now }
{
    word_in(
        &[
            (b"true", Keyword::True),
            (b"false", Keyword::False),
            (b"null", Keyword::Null),
            (b"isset", Keyword::Isset),
            (b"empty", Keyword::Empty),
            (b"array", Keyword::Array),
        ],
        name,
    )
}

// The three constants, which have case.
fn constant_word(name: &[u8]) -> Option<Keyword>
    ensures { result ≡ cased_word name.now }
{
    if name == b"PHP_EOL".as_slice() {
        return Some(Keyword::PhpEol);
    }
    if name == b"PHP_INT_MAX".as_slice() {
        return Some(Keyword::PhpIntMax);
    }
    if name == b"PHP_INT_MIN".as_slice() {
        return Some(Keyword::PhpIntMin);
    }
    if name.eq_ignore_ascii_case(b"PHP_EOL")
        || name.eq_ignore_ascii_case(b"PHP_INT_MAX")
        || name.eq_ignore_ascii_case(b"PHP_INT_MIN")
    {
        return Some(Keyword::Miscased);
    }
    None
}
