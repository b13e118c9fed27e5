//! A tree that is written and read again.

ghost use Rattle.std.specs.Prelude.{◌≡◌, IfOk, IfErr};
ghost use Rattle.php_syntax.specs.Trees.{plain_file};
ghost use Rattle.php_writer.specs.Spelled.{IsSpelled};
ghost use Rattle.php_writer.specs.Causes.{IsCauseOf};

use crate::unread::Unread;
use crate::write_tree;
use lexical_grammar::laws::{never_both, one_token_list};
use php_lexer::lex;
use php_parser::parse;
use php_syntax::tree::FileTree;
use std::alloc::Global;

/// Writes a tree, cuts what is written into tokens and reads their tree: the tree again, where some
/// file spells it. It calls itself as deep as the tree is high.
pub fn read_back(alloc: Global, tree: &FileTree) -> Result<FileTree, Unread>
    // The tree that is read is the tree that was written.
    ensures same { IfOk result
        (λ again. IsSpelled (plain_file tree.now) → plain_file again ≡ plain_file tree.now) }

    // It is not read only where the file is too long or too deep, or for want of memory.
    ensures refused { IfErr result
        (λ e. IsSpelled (plain_file tree.now) → IsCauseOf (plain_file tree.now) e) }
{
    never_both();
    one_token_list();
    let file = write_tree(alloc, tree)?;
    let tokens = lex(alloc, file.as_slice())?;
    let again = parse(alloc, tokens.as_slice())?;
    Ok(again)
}
