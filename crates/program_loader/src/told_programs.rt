//! What `load` gives stays loaded, whatever the source tells later. Where it tells of each name that
//! a program asks for, there is one program of the name, and `load` is refused for want of memory
//! alone. Each function stands for the law that its contract states.

ghost use Rattle.std.specs.Prelude.{◌≡◌, ℕ, List, Option};
ghost use Rattle.script_meaning.specs.Programs.{PlainProgram};
ghost use Rattle.io_edge.specs.Counts.{Rises};
ghost use Rattle.io_edge.specs.Names.{normal};
ghost use Rattle.io_edge.specs.Told.{Content, Stays};
ghost use Rattle.program_rules.specs.Includes.{AllStayInside};
ghost use Rattle.program_files.specs.Source.{SourceCall};
ghost use Rattle.program_files.specs.declared.refusal.LoadRefusal.{LoadRefusal};
ghost use Rattle.program_files.specs.declared.refusal.LoadRefusal.TheVariants.{Memory};
ghost use Rattle.program_loader.specs.Causes.{Loads, IsLoadCause};
ghost use Rattle.program_loader.specs.Told.{IsLoaded, HoldsProgram, AreShort, StubsAreShort};

use include_expansion::names_looked_at;
use lexical_grammar::laws::{never_both, one_token_list};
use program_rules::laws::{one_expansion, one_number_of_places};
use program_sizes::each_has_one_tree;

/// What `load` gives is the program of the name, with the functions of its files in the order of
/// first include, and behind them those that it takes of the file of stubs.
pub fn loads_are_loaded()
    ensures { (call : SourceCall) (root name : List ℕ) (stubs : Option (List ℕ))
        (program : PlainProgram) →
        Loads call root name stubs program → IsLoaded call.content name stubs program }
{}

/// It stays so where more becomes told later.
pub fn loaded_programs_stay()
    ensures { (before now : Content) (name : List ℕ) (stubs : Option (List ℕ))
        (program : PlainProgram) → Stays before now
        → IsLoaded before name stubs program → IsLoaded now name stubs program }
{}

/// And where the source tells of each name that the program asks for, and of the file of stubs, no
/// other program is loaded.
pub fn one_program_is_loaded()
    ensures { (content : Content) (name : List ℕ) (stubs : Option (List ℕ))
        (program other : PlainProgram) →
        HoldsProgram content name stubs program → IsLoaded content name stubs other
        → program ≡ other }
{
    each_has_one_tree();
    one_expansion();
    one_number_of_places();
    names_looked_at();
}

/// A program that is held, in files within their limit, of which no include leads out of the root,
/// is refused for want of memory alone, where the source does not fail.
pub fn held_programs_are_loaded()
    ensures { (call : SourceCall) (root name : List ℕ) (stubs : Option (List ℕ))
        (program : PlainProgram) (refusal : LoadRefusal) →
        (h : HoldsProgram call.content name stubs program) → AreShort h.held name →
        StubsAreShort call.content stubs →
        AllStayInside root h.held (normal name) →
        (Rises call.faults call.faults' → ⊥) → IsLoadCause call root name stubs refusal
        → refusal ≡ Memory }
{
    each_has_one_tree();
    one_expansion();
    one_number_of_places();
    names_looked_at();
    one_token_list();
    never_both();
}
