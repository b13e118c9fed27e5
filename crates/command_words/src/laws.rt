//! Laws: words in the forms of the documents are taken, whatever their order, and ask for what they
//! say.

ghost use Rattle.std.specs.Prelude.{◌≡◌, ◌∷◌, true, None, List, Option};
ghost use Rattle.clap.specs.Words.{Text, takes};
ghost use Rattle.command_words.specs.Program.{Row, commands, phpsa};
ghost use Rattle.command_words.specs.Asked.{Asked, Asks, AsksNothing, asked, asked_by, asked_first};
ghost use Rattle.command_words.specs.Canonical.{AreCanonical, IsAmong, IsCanonical, Part, all_words, given};

/// Canonical words of each command are taken, ask for what their parts say, and for neither help
/// nor the version.
pub fn canonical_words()
    ensures taken { (row : Row) (parts : List Part) (last : Option Text) → IsAmong row commands
        → AreCanonical row parts last → takes phpsa (row.word ∷ all_words parts last) ≡ true }
    ensures asked { (row : Row) (parts : List Part) (last : Option Text) → IsAmong row commands
        → AreCanonical row parts last
        → asked (row.word ∷ all_words parts last) ≡ asked_by row.word (given row.place parts last) }
    ensures first { (row : Row) (parts : List Part) (last : Option Text) → IsAmong row commands
        → AreCanonical row parts last → asked_first (row.word ∷ all_words parts last) ≡ None }
{}

/// Words ask for one thing or for nothing, and not for both; canonical words ask for what their
/// parts say.
pub fn words_ask_once()
    ensures once { (words : List Text) (for other : Asked) → Asks words for → Asks words other → for
        ≡ other }
    ensures apart { (words : List Text) (for : Asked) → Asks words for → AsksNothing words → ⊥ }
    ensures canonical { (words : List Text) (for : Asked) → IsCanonical words for → Asks words for }
{}
