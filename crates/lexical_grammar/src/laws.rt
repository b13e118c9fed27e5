//! Laws of the lexical grammar. The functions do nothing; each stands for the law that its
//! contract states.

ghost use Rattle.std.specs.Prelude.{◌≡◌, ℕ, List};
ghost use Rattle.php_syntax.specs.Tokens.{PlainToken};
ghost use Rattle.lexical_grammar.specs.declared.fault.LexicalFault.{LexicalFault};
ghost use Rattle.lexical_grammar.specs.Cuts.{Cuts, Breaks};

/// A file is cut into at most one token list.
pub fn one_token_list()
    ensures { (file : List ℕ) (tokens others : List PlainToken) → Cuts file tokens
        → Cuts file others → tokens ≡ others }
{}

/// A file breaks the lexical grammar in at most one way and at one place.
pub fn one_fault()
    ensures { (file : List ℕ) (fault other : LexicalFault) (place second : ℕ) →
        Breaks file fault place → Breaks file other second → (fault ≡ other) × (place ≡ second) }
{}

/// A file that is cut into tokens breaks nothing.
pub fn never_both()
    ensures { (file : List ℕ) (tokens : List PlainToken) (fault : LexicalFault) (place : ℕ)
        → Cuts file tokens → ¬ Breaks file fault place }
{}
