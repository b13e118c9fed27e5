//! A law: canonical words with options put in are canonical, and ask for what they say, or else for
//! what the options say.

ghost use Rattle.std.specs.Prelude.{◌≡◌, ◌∷◌, ℕ, List, Option, Some};
ghost use Rattle.command_words.specs.Program.{Row, commands};
ghost use Rattle.command_words.specs.Asked.{Asked, asked_by};
ghost use Rattle.command_words.specs.Canonical.{AreCanonical, IsAmong, IsCanonical, Part, all_words, given};
ghost use Rattle.call_options.specs.Members.{Setting};
ghost use Rattle.call_options.specs.Outcome.{gives, outcome};
ghost use Rattle.call_options.specs.Words.{filled, with_options};

/// Canonical words with the options of a file put in are canonical, and ask for what their parts
/// say of each argument, and where these say nothing of it for what the options say that the command
/// takes.
pub fn options_are_asked()
    ensures { (row : Row) (parts : List Part) (last : Option (List ℕ)) (file : List ℕ)
        (settings : List Setting) (for : Asked) → IsAmong row commands
        → AreCanonical row parts last → outcome file ≡ gives settings
        → asked_by row.word (filled row.options settings (given row.place parts last)) ≡ Some for
        → IsCanonical (with_options (row.word ∷ all_words parts last) settings) for }
{}
