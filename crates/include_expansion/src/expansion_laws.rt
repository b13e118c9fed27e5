//! What an order of the includes of files gives: the program that they stand for. Each function
//! stands for the law that its contract states.

ghost use Rattle.std.specs.Prelude.{◌≡◌, ℕ, List, [], take, length};
ghost use Rattle.std.specs.List.{Contains};
ghost use Rattle.php_syntax.specs.Trees.{PlainStmts};
ghost use Rattle.program_rules.specs.Files.{Held, HasOneTree};
ghost use Rattle.program_rules.specs.Includes.{includes_in, LeadsTo};
ghost use Rattle.program_rules.specs.Bodies.{with_bodies};
ghost use Rattle.program_rules.specs.Expansion.{StandsFor};
ghost use Rattle.program_rules.specs.Limits.{HasPlaces, one_each};
ghost use Rattle.program_rules.specs.Programs.{ReadFile};
ghost use Rattle.include_expansion.specs.Within.{tree_named, bodies_within, places_within, IsIncludeOrder, AreHeld};

/// Statements whose includes stand among the first of an order stand for themselves with these
/// replaced so many times over.
pub fn statements_stand_for()
    ensures { (held : Held) (files : List ReadFile) (order : List (List ℕ)) (n : ℕ)
        (ss : PlainStmts) →
        IsIncludeOrder files order → AreHeld held files →
        ((path : List ℕ) → Contains (includes_in ss) path → Contains (take n order) path) →
        StandsFor held ss (with_bodies (bodies_within files n) ss) }
{}

/// And have so many places of includes.
pub fn statements_have_places()
    ensures { (held : Held) (files : List ReadFile) (order : List (List ℕ)) (n : ℕ)
        (ss : PlainStmts) →
        IsIncludeOrder files order → AreHeld held files →
        ((path : List ℕ) → Contains (includes_in ss) path → Contains (take n order) path) →
        HasPlaces held ss (one_each (places_within files n) (includes_in ss)) }
{}

/// No file in an order includes itself, directly or through others.
pub fn none_includes_itself()
    ensures { (held : Held) (files : List ReadFile) (order : List (List ℕ)) (path : List ℕ) →
        HasOneTree held → IsIncludeOrder files order → AreHeld held files → Contains order path
        → LeadsTo held path path → ⊥ }
{}

/// Where includes are replaced so many times over, none is left.
pub fn no_include_is_left()
    ensures { (files : List ReadFile) (n : ℕ) (ss : PlainStmts)
        → includes_in (with_bodies (bodies_within files n) ss) ≡ [] }
{}
