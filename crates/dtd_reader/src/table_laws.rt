//! Laws of the tables of document type definitions, where the source tells what the names of a file
//! hold: a file spells one table, and one that spells a table is refused for a limit or want of
//! memory alone. The functions do nothing; each stands for the law that its contract states. Below
//! stand dtd_texts, dtd_tables and dtd_reader.

ghost use Rattle.std.specs.Prelude.{◌≡◌, ℕ, List};
ghost use Rattle.io_edge.specs.Counts.{Rises};
ghost use Rattle.dtd_model.specs.Table.{Table};
ghost use Rattle.io_edge.specs.Told.{Content};
ghost use Rattle.dtd_texts.specs.Reading.{Written};
ghost use Rattle.dtd_texts.specs.Spells.{DtdSpells, Says};
ghost use Rattle.dtd_texts.specs.Tables.{Said, element_names};
ghost use Rattle.dtd_texts.specs.Went.{Went, leads};
ghost use Rattle.dtd_tables.specs.Causes.{StandsTwice, GoesWrong};
ghost use Rattle.dtd_reader.specs.Source.{SourceCall};
ghost use Rattle.dtd_reader.specs.Refusals.{IsCause};
ghost use Rattle.dtd_reader.specs.declared.refusal.DtdRefusal.{DtdRefusal};
ghost use Rattle.dtd_reader.specs.Certain.{AreTold, AreShort, IsForLimit};

/// A file spells one table, where the names that it asks for are told of.
pub fn one_table()
    ensures { (content : Content) (root name : List ℕ) (table other : Table) → AreTold content root name
        → DtdSpells content root name table →
        DtdSpells content root name other → table ≡ other }
{}

/// A file that spells a table is refused for a limit or want of memory alone, where the names that
/// it asks for are told of and within the limit of a file, and the source does not fail.
pub fn refused_for_limits()
    ensures { (call : SourceCall) (root name : List ℕ) (table : Table) (refusal : DtdRefusal)
        → AreTold call.content root name →
        AreShort call.content root name → DtdSpells call.content root name table
        → (Rises call.faults call.faults' → ⊥) →
        IsCause call root name refusal → IsForLimit call.content root name refusal }
{}

/// Where declarations say something, each of them does, and no element stands twice.
pub fn nothing_wrong()
    ensures each { (written : List Written) (says : List Said) (at : ℕ) (how : Went Said)
        → Says written says →
        GoesWrong written at how → (s : Said) × (how ≡ leads s) }
    ensures once { (written : List Written) (says : List Said) (name : List ℕ) → Says written says →
        ¬ StandsTwice (element_names written) name }
{}
