//! Laws of the definitions.

ghost use Rattle.std.specs.Prelude.{◌≡◌, ℕ, List};
ghost use Rattle.dtd_model.specs.Table.{Model};
ghost use Rattle.dtd_model.specs.Matches.{model_matches};
ghost use Rattle.content_automata.specs.Positions.{first_of, places_of};
ghost use Rattle.content_automata.specs.Sets.{set_behind, is_whole};
ghost use Rattle.content_automata.specs.Walks.{place_at, leads};

/// Elements lead over the positions of a model to its end exactly where the model matches them
/// (XML 1.0, 3.2.1).
pub fn positions_decide()
    ensures { (m : Model) (es : List ℕ) → leads (place_at (places_of m)) (first_of m) es
        ≡ model_matches m es }
{}

/// The set of positions behind some elements is there and has the end exactly where the model
/// matches them.
pub fn sets_decide()
    ensures { (m : Model) (es : List ℕ) → is_whole (set_behind m es) ≡ model_matches m es }
{}
