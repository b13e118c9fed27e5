//! What files say of the program that they stand for: it is lawful, and it is the program of the
//! name. Each function stands for the law that its contract states.

ghost use Rattle.std.specs.Prelude.{◌≡◌, ℕ, List, [], true, length};
ghost use Rattle.php_syntax.specs.Trees.{PlainFunction};
ghost use Rattle.script_meaning.specs.Programs.{PlainProgram};
ghost use Rattle.program_rules.specs.Files.{Held, HasTree, HasOneScript, HasOneTree};
ghost use Rattle.program_rules.specs.Programs.{ReadFile, functions_in, taken, IsProgram, HasNoCycle};
ghost use Rattle.program_rules.specs.Lawful.{IsLawful};
ghost use Rattle.program_files.specs.Order.{is_read, Reached};
ghost use Rattle.include_expansion.specs.FileOrder.{AreWhole};
ghost use Rattle.include_expansion.specs.Within.{tree_named, program_within, IsIncludeOrder, AreHeld};
ghost use Rattle.program_sizes.specs.Limits.{program_places};
ghost use Rattle.program_sizes.specs.Loaded.{AreScripts, AreStubs, with_stubs, MakeProgram, StandsForProgram};

use include_expansion::{
    calls_are_in_files, files_of_the_program, forms_are_kept, no_include_is_left,
    none_includes_itself, rules_are_kept, statements_have_places, statements_stand_for,
};
use lexical_grammar::laws::one_token_list;
use php_parser::laws::one_tree;

/// Each file has one script at most, and one tree.
pub fn each_has_one_tree()
    ensures script { (held : Held) → HasOneScript held }
    ensures tree { (held : Held) → HasOneTree held }
{
    one_token_list();
    one_tree();
}

/// Files that were read, with no name left to be looked at, are under names of their own with all
/// that they include, and hold their trees; each is a script, and that of the name is among them.
pub fn read_files_are_whole()
    ensures whole { (held : Held) (name : List ℕ) (files : List ReadFile) → HasOneTree held
        → Reached (HasTree held) name files [] → AreWhole files }
    ensures held { (held : Held) (name : List ℕ) (files : List ReadFile) → HasOneTree held
        → Reached (HasTree held) name files [] → AreHeld held files }
    ensures scripts { (held : Held) (name : List ℕ) (files : List ReadFile) → HasOneTree held
        → Reached (HasTree held) name files [] → AreScripts files }
    ensures named { (held : Held) (name : List ℕ) (files : List ReadFile) → HasOneTree held
        → Reached (HasTree held) name files [] → is_read files name ≡ true }
{
    files_of_the_program();
}

/// Where they have an order of their includes, none includes itself, and the file of the name
/// stands for a program with stubs, however large.
pub fn ordered_files_stand_for_a_program()
    ensures acyclic { (held : Held) (name : List ℕ) (files : List ReadFile) (order : List (List ℕ))
        →
        HasOneTree held → Reached (HasTree held) name files [] → IsIncludeOrder files order
        → HasNoCycle held name }
    ensures program { (held : Held) (name : List ℕ) (files : List ReadFile) (order : List (List ℕ))
        (stubs : List PlainFunction) →
        HasOneTree held → Reached (HasTree held) name files [] → IsIncludeOrder files order →
        StandsForProgram held name files stubs
        (program_places files (length order) (tree_named files name))
        (with_stubs stubs (program_within files (length order) (tree_named files name))) }
{
    files_of_the_program();
    statements_stand_for();
    statements_have_places();
    none_includes_itself();
}

/// What files make is lawful.
pub fn made_programs_are_lawful()
    ensures { (files : List ReadFile) (stubs : List PlainFunction) (order : List (List ℕ))
        (name : List ℕ) (program : PlainProgram) →
        AreScripts files → AreStubs stubs → MakeProgram files stubs order name program
        → IsLawful program }
{
    calls_are_in_files();
    rules_are_kept();
    forms_are_kept();
    no_include_is_left();
}

/// And it is the program of the name, with those that it takes of the functions of a file of stubs.
pub fn made_programs_are_programs()
    ensures { (held : Held) (files : List ReadFile) (functions : List PlainFunction)
        (order : List (List ℕ)) (name : List ℕ) (program : PlainProgram) →
        HasOneTree held → Reached (HasTree held) name files [] → AreStubs functions
        → MakeProgram files (taken (functions_in files) functions) order name program
        → IsProgram held name functions program }
{
    files_of_the_program();
    statements_stand_for();
    statements_have_places();
    none_includes_itself();
    calls_are_in_files();
}
