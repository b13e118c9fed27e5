//! The texts in a program.

ghost use Rattle.std.specs.Prelude.{◌≡◌, ◌++◌, ◌&&◌, true, false, OnOk};
ghost use Rattle.php_syntax.specs.Trees.{stmts_of, functions_of_list};
ghost use Rattle.program_rules.specs.View.{program_of};
ghost use Rattle.flow_runs.specs.Texts.{statement_texts, function_texts, TextsFit};
ghost use Rattle.program_lowering.specs.Short.{all_short, HasLongText};

use crate::literal_texts::Texts;
use program_rules::Program;
use std::convert::Infallible;
use tree_walks::{visit_functions, visit_stmts};

// Looks at all text literals of a program.
fn look(texts: &mut Texts, program: &Program) -> Result<(), Infallible>
    ensures { OnOk result (texts.new.short ≡ (texts.old.short
        && all_short (statement_texts (stmts_of program.now.main.items)
        ++ function_texts (functions_of_list program.now.functions.items)))) }
{
    visit_stmts(texts, program.main.as_slice())?;
    visit_functions(texts, program.functions.as_slice())?;
    Ok(())
}

/// Whether each text literal of a program has at most 16,777,216 bytes. Takes time linear in the
/// program, and calls itself as deep as the program is high.
pub fn literals_are_short(program: &Program) -> bool
    ensures short { result ≡ true → TextsFit (program_of program.now) }
    ensures long { result ≡ false → HasLongText (program_of program.now) }
{
    let mut texts = Texts { short: true };
    match look(&mut texts, program) {
        Ok(()) => texts.short,
    }
}
