//! The functions.

ghost use Rattle.std.specs.Prelude.{◌≡◌};
ghost use Rattle.builtin_meaning.specs.Arity.{arity_of};

/// A function of PHP that a script may call, under its name in the manual.
#[derive(Clone, Copy, Debug, PartialEq, Eq, Hash)]
pub enum Builtin {
    /// `htmlspecialchars`
    Htmlspecialchars,
    /// `str_replace`
    StrReplace,
    /// `substr`
    Substr,
    /// `strtolower`
    Strtolower,
    /// `strtoupper`
    Strtoupper,
    /// `ucfirst`
    Ucfirst,
    /// `trim`
    Trim,
    /// `ltrim`
    Ltrim,
    /// `rtrim`
    Rtrim,
    /// `nl2br`
    Nl2br,
    /// `urlencode`
    Urlencode,
    /// `rawurlencode`
    Rawurlencode,
    /// `addslashes`
    Addslashes,
    /// `explode`
    Explode,
    /// `implode`
    Implode,
    /// `str_repeat`
    StrRepeat,
    /// `strlen`
    Strlen,
    /// `count`
    Count,
    /// `intval`
    Intval,
    /// `intdiv`
    Intdiv,
    /// `strval`
    Strval,
    /// `is_array`
    IsArray,
    /// `is_string`
    IsString,
}

impl Builtin {
    /// The least and the greatest number of arguments that the function takes.
    pub fn arity(self) -> (u8, u8)
        ensures { result ≡ arity_of self }
    {
        match self {
            Builtin::StrReplace => (3, 3),
            Builtin::Substr => (2, 3),
            Builtin::Explode | Builtin::Implode | Builtin::StrRepeat | Builtin::Intdiv => (2, 2),
            _ => (1, 1),
        }
    }
}
