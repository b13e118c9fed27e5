//! Names, variables, integers, texts and signs are cut as whoever writes them spells them: what a
//! writer of scripts owes its reader. Each function does nothing, and stands for the law that its
//! contract states, over `step` and so over `Cuts` of lexical_grammar, which stands below.

ghost use Rattle.std.specs.Prelude.{◌≡◌, ◌≢◌, ◌∷◌, ◌++◌, ◌+◌, ℕ, suc, pos, List, length, Some, None};
ghost use Rattle.php_syntax.specs.Tokens.{name, variable, integer, text, sign};
ghost use Rattle.lexical_grammar.specs.Characters.{value_of};
ghost use Rattle.php_syntax.specs.Spelling.{spelling_of};
ghost use Rattle.lexical_grammar.specs.Signs.{cast_step};
ghost use Rattle.php_syntax.specs.declared.token.Sign.{Sign};
ghost use Rattle.php_syntax.specs.declared.token.Sign.TheVariants as signs;
ghost use Rattle.lexical_grammar.specs.Steps.{inside, goes};
ghost use Rattle.lexical_grammar.specs.Cuts.{step};
ghost use Rattle.lexical_grammar.specs.Spelled.{IsName, IsInteger, EndsName, EndsInteger, quoted};

/// A name is cut as a name, where nothing goes on with it.
pub fn names_are_cut()
    ensures { (word rest : List ℕ) → IsName word → EndsName rest →
        step inside (word ++ rest) ≡ goes (Some (name word)) (length word) inside }
{}

/// `$` and a name are cut as a variable.
pub fn variables_are_cut()
    ensures { (word rest : List ℕ) → IsName word → EndsName rest →
        step inside (36 ∷ (word ++ rest)) ≡ goes (Some (variable word)) (suc (length word)) inside }
{}

/// An integer literal is cut as its number.
pub fn integers_are_cut()
    ensures { (digits rest : List ℕ) → IsInteger digits → EndsInteger rest →
        step inside (digits ++ rest)
        ≡ goes (Some (integer (pos (value_of digits)))) (length digits) inside }
{}

/// A text in single quotes is cut as the bytes that it was written for, whatever stands behind it.
pub fn texts_are_cut()
    ensures { (bytes rest : List ℕ) →
        step inside (39 ∷ (quoted bytes ++ rest))
        ≡ goes (Some (text bytes)) (1 + length (quoted bytes)) inside }
{}

/// A sign before a space is cut as that sign, and a `(` where no cast begins there.
pub fn signs_are_cut()
    ensures spaced { (x : Sign) (rest : List ℕ) → x ≢ signs.OpenParen →
        step inside (spelling_of x ++ 32 ∷ rest)
        ≡ goes (Some (sign x)) (length (spelling_of x)) inside }
    ensures bracket { (rest : List ℕ) → cast_step (40 ∷ rest) ≡ None →
        step inside (40 ∷ rest) ≡ goes (Some (sign signs.OpenParen)) 1 inside }
{}
