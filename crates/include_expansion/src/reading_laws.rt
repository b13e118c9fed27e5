//! What it says that files were read in the order of their includes. Each function stands for the
//! law that its contract states.

ghost use Rattle.std.specs.Prelude.{ℕ, List, []};
ghost use Rattle.std.specs.List.{Contains};
ghost use Rattle.program_rules.specs.Files.{Held, HasTree, HasOneTree};
ghost use Rattle.program_rules.specs.Includes.{Reads};
ghost use Rattle.program_rules.specs.Programs.{ReadFile, AreRead};
ghost use Rattle.program_files.specs.Order.{Reached};

/// Where no name is left to be looked at, the files are those that the program reads, each once.
pub fn files_of_the_program()
    ensures { (held : Held) (name : List ℕ) (files : List ReadFile) → HasOneTree held →
        Reached (HasTree held) name files [] → AreRead held name files }
{}

/// Each name that is looked at is one that the program reads.
pub fn names_looked_at()
    ensures { (held : Held) (name : List ℕ) (files : List ReadFile) (paths : List (List ℕ))
        (path : List ℕ) →
        Reached (HasTree held) name files paths → Contains paths path → Reads held name path }
{}
