//! The laws.

ghost use Rattle.std.specs.Prelude.{◌≡◌, ◌⊎◌, ℕ, ℤ, true, false, List, [], ◌∷◌, Some, None, Ok, Contains};
ghost use Rattle.plain_values.specs.Plain.{Plain, Pairs, null, int, text, array};
ghost use Rattle.plain_values.specs.Numeric.{is_in_range};
ghost use Rattle.plain_values.specs.Text.{text_of};
ghost use Rattle.builtin_meaning.specs.Arguments.{as_text};
ghost use Rattle.builtin_meaning.specs.Values.{builtin_value};
ghost use Rattle.builtin_meaning.specs.declared.builtin.Builtin.TheVariants as builtin;
ghost use Rattle.op_system.specs.Rel.{Rel};
ghost use Rattle.op_system.specs.declared.op.Op.TheVariants as op;
ghost use Rattle.function_laws.specs.Members.{HasText};
ghost use Rattle.function_laws.specs.Numeral.{IsSignedNumeral};

/// The functions of one text: where the argument is taken as a text and the result is a text, the
/// operation relates the two.
pub fn one_text()
    ensures html { (a : Plain) (t out : List ℕ) → as_text a ≡ Ok t
        → builtin_value builtin.Htmlspecialchars (a ∷ []) ≡ Ok (text out) → Rel op.Html t out }
    ensures lower { (a : Plain) (t out : List ℕ) → as_text a ≡ Ok t
        → builtin_value builtin.Strtolower (a ∷ []) ≡ Ok (text out) → Rel op.Lower t out }
    ensures upper { (a : Plain) (t out : List ℕ) → as_text a ≡ Ok t
        → builtin_value builtin.Strtoupper (a ∷ []) ≡ Ok (text out) → Rel op.Upper t out }
    ensures first { (a : Plain) (t out : List ℕ) → as_text a ≡ Ok t
        → builtin_value builtin.Ucfirst (a ∷ []) ≡ Ok (text out) → Rel op.First t out }
    ensures trim { (a : Plain) (t out : List ℕ) → as_text a ≡ Ok t
        → builtin_value builtin.Trim (a ∷ []) ≡ Ok (text out) → Rel (op.Trim true true) t out }
    ensures left { (a : Plain) (t out : List ℕ) → as_text a ≡ Ok t
        → builtin_value builtin.Ltrim (a ∷ []) ≡ Ok (text out) → Rel (op.Trim true false) t out }
    ensures right { (a : Plain) (t out : List ℕ) → as_text a ≡ Ok t
        → builtin_value builtin.Rtrim (a ∷ []) ≡ Ok (text out) → Rel (op.Trim false true) t out }
    ensures breaks { (a : Plain) (t out : List ℕ) → as_text a ≡ Ok t
        → builtin_value builtin.Nl2br (a ∷ []) ≡ Ok (text out) → Rel op.Breaks t out }
    ensures url { (a : Plain) (t out : List ℕ) → as_text a ≡ Ok t
        → builtin_value builtin.Urlencode (a ∷ []) ≡ Ok (text out) → Rel op.Url t out }
    ensures raw_url { (a : Plain) (t out : List ℕ) → as_text a ≡ Ok t
        → builtin_value builtin.Rawurlencode (a ∷ []) ≡ Ok (text out) → Rel op.RawUrl t out }
    ensures slashes { (a : Plain) (t out : List ℕ) → as_text a ≡ Ok t
        → builtin_value builtin.Addslashes (a ∷ []) ≡ Ok (text out) → Rel op.Slashes t out }
{}

/// `str_replace` with a literal search and replacement is `Replace`, and `Same` where the search is
/// empty.
pub fn literal_replacement()
    ensures replace { (search with : List ℕ) (a : Plain) (t out : List ℕ) → as_text a ≡ Ok t
        → builtin_value builtin.StrReplace (text search ∷ text with ∷ a ∷ []) ≡ Ok (text out)
        → Rel (op.Replace search with) t out }
    ensures same { (with : List ℕ) (a : Plain) (t out : List ℕ) → as_text a ≡ Ok t
        → builtin_value builtin.StrReplace (text [] ∷ text with ∷ a ∷ []) ≡ Ok (text out)
        → Rel op.Same t out }
{}

/// `str_replace` of any texts has the bytes of the text and of the replacement alone.
pub fn any_replacement()
    ensures { (a b c : Plain) (with t out : List ℕ) → as_text b ≡ Ok with → as_text c ≡ Ok t
        → builtin_value builtin.StrReplace (a ∷ b ∷ c ∷ []) ≡ Ok (text out)
        → (byte : ℕ) → Contains out byte → Contains t byte ⊎ Contains with byte }
{}

/// `substr` with literal numbers is `Cut`, where the length is null or left out too.
pub fn literal_cut()
    ensures both { (a : Plain) (start len : ℤ) (t out : List ℕ) → as_text a ≡ Ok t
        → builtin_value builtin.Substr (a ∷ int start ∷ int len ∷ []) ≡ Ok (text out)
        → Rel (op.Cut start (Some len)) t out }
    ensures rest { (a : Plain) (start : ℤ) (t out : List ℕ) → as_text a ≡ Ok t
        → builtin_value builtin.Substr (a ∷ int start ∷ []) ≡ Ok (text out)
        → Rel (op.Cut start None) t out }
    ensures without { (a : Plain) (start : ℤ) (t out : List ℕ) → as_text a ≡ Ok t
        → builtin_value builtin.Substr (a ∷ int start ∷ null ∷ []) ≡ Ok (text out)
        → Rel (op.Cut start None) t out }
{}

/// `substr` with any numbers gives a part of the text.
pub fn part()
    ensures three { (a b c : Plain) (t out : List ℕ) → as_text a ≡ Ok t
        → builtin_value builtin.Substr (a ∷ b ∷ c ∷ []) ≡ Ok (text out) → Rel op.Factor t out }
    ensures two { (a b : Plain) (t out : List ℕ) → as_text a ≡ Ok t
        → builtin_value builtin.Substr (a ∷ b ∷ []) ≡ Ok (text out) → Rel op.Factor t out }
{}

/// `explode` with a literal separator gives the pieces.
pub fn literal_pieces()
    ensures { (sep : List ℕ) (a : Plain) (t : List ℕ) (ps : Pairs) → as_text a ≡ Ok t
        → builtin_value builtin.Explode (text sep ∷ a ∷ []) ≡ Ok (array ps)
        → (out : List ℕ) → HasText ps out → Rel (op.Piece sep) t out }
{}

/// `explode` with any separator gives parts of the text.
pub fn parts()
    ensures { (a b : Plain) (t : List ℕ) (ps : Pairs) → as_text b ≡ Ok t
        → builtin_value builtin.Explode (a ∷ b ∷ []) ≡ Ok (array ps)
        → (out : List ℕ) → HasText ps out → Rel op.Factor t out }
{}

/// The text form of an integer is a minus or nothing, and digits.
pub fn number_form()
    ensures { (z : ℤ) → is_in_range z ≡ true → IsSignedNumeral (text_of (int z)) }
{}
