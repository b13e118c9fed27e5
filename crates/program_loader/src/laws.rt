//! From files that were read to the program of a name, or to the cause of a refusal.

ghost use Rattle.std.specs.Prelude.{ℕ, List, Option};
ghost use Rattle.io_edge.specs.Names.{normal};
ghost use Rattle.php_syntax.specs.Trees.{PlainFunction};
ghost use Rattle.script_meaning.specs.Programs.{PlainProgram};
ghost use Rattle.program_rules.specs.Programs.{ReadFile};
ghost use Rattle.program_files.specs.declared.refusal.LoadRefusal.{LoadRefusal};
ghost use Rattle.program_files.specs.Source.{SourceCall};
ghost use Rattle.program_files.specs.Causes.{ReadsAll, IsReadCause};
ghost use Rattle.program_loader.specs.Causes.{Loads, IsLoadCause};
ghost use Rattle.program_loader.specs.Making.{AreReady, Make, IsMakeCause, ReadBoth, ReadFirst};

use include_expansion::{files_of_the_program, names_looked_at};
use program_sizes::{
    each_has_one_tree, made_programs_are_programs, ordered_files_stand_for_a_program,
    read_files_are_whole,
};

/// What is read and made is loaded, and why reading or making stops is why loading does.
pub fn what_is_made_is_loaded()
    ensures ready { (call : SourceCall) (root name : List ℕ) (files : List ReadFile)
        → ReadsAll call root name files → AreReady files (normal name) }
    ensures ok { (call : SourceCall) (root name : List ℕ) (stubs : Option (List ℕ))
        (files : List ReadFile) (functions : List PlainFunction) (program : PlainProgram)
        → ReadBoth call root name stubs files functions
        → Make files functions (normal name) program → Loads call root name stubs program }
    ensures err { (call : SourceCall) (root name : List ℕ) (stubs : Option (List ℕ))
        (files : List ReadFile) (functions : List PlainFunction) (refusal : LoadRefusal)
        → ReadBoth call root name stubs files functions
        → IsMakeCause files functions (normal name) refusal
        → IsLoadCause call root name stubs refusal }
    ensures unread { (call : SourceCall) (root name : List ℕ) (stubs : Option (List ℕ))
        (refusal : LoadRefusal)
        → IsReadCause call root name refusal → IsLoadCause call root name stubs refusal }
    ensures unstubbed { (call : SourceCall) (root name : List ℕ) (stubs : Option (List ℕ))
        (refusal : LoadRefusal) → ReadFirst call root name stubs refusal
        → IsLoadCause call root name stubs refusal }
{
    each_has_one_tree();
    files_of_the_program();
    names_looked_at();
    read_files_are_whole();
    ordered_files_stand_for_a_program();
    made_programs_are_programs();
}
