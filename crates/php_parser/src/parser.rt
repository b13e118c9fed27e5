//! Tokens to the one tree that they spell.

ghost use Rattle.std.specs.Prelude.{◌≡◌, ◌≤◌, IfOk, IfErr};
ghost use Rattle.text_base.specs.declared.limits.TheConstants.{HEIGHT_LIMIT};
ghost use Rattle.php_syntax.specs.Tokens.{plain_tokens};
ghost use Rattle.php_syntax.specs.Trees.{PlainFile, plain_file};
ghost use Rattle.script_grammar.specs.Terminals.{terminals};
ghost use Rattle.php_syntax.specs.Height.{file_height};
ghost use Rattle.script_grammar.specs.Grammar.{SpellsTree, most_open};
ghost use Rattle.php_parser.specs.Refusals.{IsCauseOf};

use crate::brackets::too_many;
use crate::refusal::ParseRefusal;
use php_syntax::token::Token;
use php_syntax::tree::FileTree;
use std::alloc::Global;
use stmt_laws::{actions_make_files, files_are_read, what_is_read_is_a_file};
use stmt_parser::reader::{Reading, read_file};

/// The tree that the tokens spell, by the grammar of the script language (PHP manual, "Language
/// Reference").
///
/// At most 200 brackets may be open at once, which is tested first, and the tree may be at most 200
/// high. Takes time and memory linear in the number of the tokens, and a stack of its own, so that
/// no nesting outgrows the machine's.
pub fn parse(alloc: Global, tokens: &[Token]) -> Result<FileTree, ParseRefusal>
    // The tokens spell the tree, and no other.
    ensures tree { IfOk result (λ tree. SpellsTree (plain_tokens tokens.now) (plain_file tree)) }
    ensures only { IfOk result (λ tree.
        (other : PlainFile) → SpellsTree (plain_tokens tokens.now) other → other
        ≡ plain_file tree) }

    // They are not too deep.
    ensures within { IfOk result (λ tree.
        (most_open 0 (terminals (plain_tokens tokens.now)) ≤ HEIGHT_LIMIT)
        × (file_height (plain_file tree) ≤ HEIGHT_LIMIT)) }

    // A refusal has its cause.
    ensures refused { IfErr result (IsCauseOf (plain_tokens tokens.now)) }
{
    files_are_read();
    what_is_read_is_a_file();
    actions_make_files();
    if let Some(at) = too_many(tokens) {
        return Err(ParseRefusal::TooDeep { at });
    }
    match read_file(alloc, tokens)? {
        Reading::File(tree) => Ok(tree),
        Reading::Tall { at } => Err(ParseRefusal::TooDeep { at }),
        Reading::Stuck { at } => Err(ParseRefusal::NotInSubset { at }),
    }
}
