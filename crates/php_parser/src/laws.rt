//! Laws of the grammar. The function does nothing, and stands for the law that its contract states.

ghost use Rattle.std.specs.Prelude.{◌≡◌, List};
ghost use Rattle.php_syntax.specs.Tokens.{PlainToken};
ghost use Rattle.php_syntax.specs.Trees.{PlainFile};
ghost use Rattle.script_grammar.specs.Grammar.{SpellsTree, IsTooDeep};

use stmt_laws::{actions_make_files, files_are_read};

/// Tokens that are not too deep spell at most one tree.
pub fn one_tree()
    ensures { (tokens : List PlainToken) (a b : PlainFile) → (IsTooDeep tokens → ⊥) →
        SpellsTree tokens a → SpellsTree tokens b → a ≡ b }
{
    files_are_read();
    actions_make_files();
}
