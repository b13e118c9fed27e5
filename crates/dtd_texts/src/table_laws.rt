//! Laws of the definitions of dtd_texts: what declarations say is lawful by the test of dtd_model,
//! and general entities have names, each once. The functions do nothing; each stands for the law
//! that its contract states. Below stand dtd_texts and dtd_model.

ghost use Rattle.std.specs.Prelude.{◌≡◌, ℕ, List, [], true};
ghost use Rattle.dtd_model.specs.Lawful.{are_names};
ghost use Rattle.io_edge.specs.Told.{Content};
ghost use Rattle.dtd_texts.specs.Reading.{State, Reads, start};
ghost use Rattle.dtd_texts.specs.Tables.{Said, said};
ghost use Rattle.dtd_texts.specs.Went.{leads};
ghost use Rattle.dtd_texts.specs.Lawful.{IsLawfulSaid};

/// The declaration of an element has a name and a lawful content model, where so many elements are
/// declared; an attribute list has names and lawful types.
pub fn declarations_are_lawful()
    ensures { (names : List (List ℕ)) (text : List ℕ) (says : Said) → said names text ≡ leads says
        → IsLawfulSaid names text says }
{}

/// The general entities that a text declares have names, and none stands twice.
pub fn entities_are_names()
    ensures { (content : Content) (file : List ℕ) (last : State) → Reads content [] start file last
        → are_names last.generals ≡ true }
{}
