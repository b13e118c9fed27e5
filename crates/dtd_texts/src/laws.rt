//! Laws of the definitions. The functions do nothing; each stands for the law that its contract
//! states. Each speaks of a source that tells what it holds.

ghost use Rattle.std.specs.Prelude.{◌≡◌, ◌≤◌, ℕ, List, None};
ghost use Rattle.io_edge.specs.Told.{Content, Tells};
ghost use Rattle.dtd_texts.specs.Reading.{State, IsTold};
ghost use Rattle.dtd_texts.specs.Causes.{Breaks, Omits, Misses, Asks, Comes};
ghost use Rattle.dtd_texts.specs.Spells.{ReadsAll};

/// A text is read in one way.
pub fn one_reading()
    ensures { (content : Content) (file : List ℕ) (last other : State) → IsTold content →
        ReadsAll content file last → ReadsAll content file other → last ≡ other }
{}

/// A text that is read is not broken, leaves nothing out, and refers to no entity that is open or
/// not declared.
pub fn nothing_refused()
    ensures broken { (content : Content) (file : List ℕ) (last : State) (at : ℕ) → IsTold content →
        ReadsAll content file last → ¬ Breaks content file at }
    ensures left_out { (content : Content) (file : List ℕ) (last : State) (at : ℕ) → IsTold content
        →
        ReadsAll content file last → ¬ Omits content file at }
    ensures missed { (content : Content) (file name : List ℕ) (last : State) → IsTold content →
        ReadsAll content file last → ¬ Misses content file name }
{}

/// Each file that a text that is read asks for is there.
pub fn nothing_missing()
    ensures { (content : Content) (file name : List ℕ) (last : State) → IsTold content →
        ReadsAll content file last → Asks content file name → ¬ Tells (content name) None }
{}

/// On the way the replaced text is never longer than in the end, nor are more references replaced or
/// more bytes passed over.
pub fn never_larger()
    ensures { (content : Content) (file : List ℕ) (s last : State) → IsTold content →
        ReadsAll content file last → Comes content file s → (s.length ≤ last.length)
        × (s.references ≤ last.references) × (s.passed ≤ last.passed) }
{}
