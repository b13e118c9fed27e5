//! One script to its tree.

ghost use Rattle.std.specs.Prelude.{◌≡◌, ◌≤◌, length, IfOk, IfErr};
ghost use Rattle.text_base.specs.declared.limits.TheConstants.{FILE_LIMIT};
ghost use Rattle.php_syntax.specs.Trees.{plain_file};
ghost use Rattle.program_files.specs.Scripts.{IsScript};
ghost use Rattle.program_files.specs.Unread.{lexed_as, parsed_as, IsUnread};

use crate::refusal::ScriptRefusal;
use php_lexer::{LexRefusal, lex};
use php_parser::{ParseRefusal, parse};
use php_syntax::tree::FileTree;
use std::alloc::Global;
use text_base::NoMemory;

// Why a script has no tree here.
#[derive(Clone, Copy, Debug)]
pub(crate) enum Unread {
    Script(ScriptRefusal),
    Memory,
}

impl From<LexRefusal> for Unread {
    ghost from_gives = { λ lexed unread. unread ≡ lexed_as lexed };

    fn from(refusal: LexRefusal) -> Self {
        match refusal {
            LexRefusal::Memory => Unread::Memory,
            _ => Unread::Script(ScriptRefusal::Lex(refusal)),
        }
    }
}

impl From<ParseRefusal> for Unread {
    ghost from_gives = { λ parsed unread. unread ≡ parsed_as parsed };

    fn from(refusal: ParseRefusal) -> Self {
        match refusal {
            ParseRefusal::Memory => Unread::Memory,
            _ => Unread::Script(ScriptRefusal::Parse(refusal)),
        }
    }
}

impl From<NoMemory> for Unread {
    ghost use Rattle.std.specs.Prelude.{◌≡◌};
    ghost use Rattle.program_files.specs.declared.tree.Unread.TheVariants.{Memory};

    ghost from_gives = { λ _ unread. unread ≡ Memory };

    fn from(_: NoMemory) -> Self {
        Unread::Memory
    }
}

/// The tree of a script.
pub(crate) fn tree_of(alloc: Global, script: &[u8]) -> Result<FileTree, Unread>
    requires { length script.now ≤ FILE_LIMIT }
    ensures ok { IfOk result (λ tree. IsScript script.now (plain_file tree)) }
    ensures err { IfErr result (λ unread. IsUnread script.now unread) }
{
    let tokens = lex(alloc, script)?;
    let tree = parse(alloc, tokens.as_slice())?;
    Ok(tree)
}
