//! Laws about the definitions.

ghost use Rattle.std.specs.Prelude.{◌≡◌, ℕ};
ghost use Rattle.php_syntax.specs.Trees.{PlainStmts};
ghost use Rattle.program_rules.specs.Files.{Held, HasOneTree};
ghost use Rattle.program_rules.specs.Limits.{HasPlaces};
ghost use Rattle.program_rules.specs.Expansion.{StandsFor};

/// Where each file has one tree at most, statements stand for one list of statements at most.
pub fn one_expansion()
    ensures { (held : Held) (ss a b : PlainStmts) → HasOneTree held → StandsFor held ss a
        → StandsFor held ss b → a ≡ b }
{}

/// And have one number of places of includes.
pub fn one_number_of_places()
    ensures { (held : Held) (ss : PlainStmts) (m n : ℕ) → HasOneTree held → HasPlaces held ss m
        → HasPlaces held ss n → m ≡ n }
{}
