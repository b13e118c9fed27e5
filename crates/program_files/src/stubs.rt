//! The file of stubs.

ghost use Rattle.std.specs.Prelude.{◌≡◌, ◌≤◌, length, option_map, IfOk, IfErr};
ghost use Rattle.text_base.specs.declared.limits.TheConstants.{FILE_LIMIT};
ghost use Rattle.io_edge.specs.Told.{Stays};
ghost use Rattle.php_syntax.specs.Tokens.{plain_token, plain_tokens};
ghost use Rattle.php_syntax.specs.Trees.{functions_of_list};
ghost use Rattle.program_files.specs.Source.{source_call};
ghost use Rattle.program_files.specs.Stubs.{ReadsStubs, is_include_word, include_place, IsStubFileCause, IsStubCause};
ghost use Rattle.program_files.specs.Unread.{IsUnreadStub, StubsOf};

use crate::includes::find_includes;
use crate::refusal::{LoadRefusal, ScriptRefusal};
use crate::tree::Unread;
use io_edge::{FileFault, FileKind, Files, normal_name};
use php_lexer::lex;
use php_parser::{ParseRefusal, parse};
use php_syntax::token::{Token, TokenKind};
use php_syntax::tree::{FileTree, FunctionDef};
use script_grammar::keyword::{Keyword, keyword_named};
use std::alloc::Global;
use text_base::Bytes;

/// The functions of the file of stubs of a name, if there is one: a script that includes nothing.
/// The name is taken in its normal form, and the file may be of any kind. Takes time linear in the
/// file.
///
/// # Errors
///
/// `Missing` with the name as it is handed over; `ReadFault`, `TooLong` and `Script` with its
/// normal form, the last also where the script includes something, at the first word that begins
/// an include; and `Memory`.
pub fn read_stubs<F: Files>(
    alloc: Global,
    source: &mut F,
    stubs: Option<&str>,
) -> Result<Vec<FunctionDef>, LoadRefusal>
    ensures ok { IfOk result
        (λ functions. ReadsStubs (source_call (F.content source.new) (F.faults source.old)
        (F.faults source.new)
        (F.misses source.old) (F.misses source.new) (F.reads source.old) (F.reads source.new))
        (option_map (λ text. text.now) stubs.entry) (functions_of_list functions.items)) }
    ensures err { IfErr result
        (IsStubCause (source_call (F.content source.new) (F.faults source.old) (F.faults source.new)
        (F.misses source.old) (F.misses source.new) (F.reads source.old) (F.reads source.new))
        (option_map (λ text. text.now) stubs.entry)) }
    ensures stays { Stays (F.content source.old) (F.content source.new) }
{
    match stubs {
        Some(name) => match read_stub_file(alloc, source, name) {
            Ok(functions) => Ok(functions),
            Err(refusal) => Err(refusal),
        },
        None => Ok(Vec::new(alloc)),
    }
}

// The functions of the file of stubs of a name.
fn read_stub_file<F: Files>(
    alloc: Global,
    source: &mut F,
    name: &str,
) -> Result<Vec<FunctionDef>, LoadRefusal>
    ensures ok { IfOk result
        (λ functions. ReadsStubs (source_call (F.content source.new) (F.faults source.old)
        (F.faults source.new)
        (F.misses source.old) (F.misses source.new) (F.reads source.old) (F.reads source.new))
        (Some name.now) (functions_of_list functions.items)) }
    ensures err { IfErr result
        (IsStubFileCause (source_call (F.content source.new) (F.faults source.old)
        (F.faults source.new)
        (F.misses source.old) (F.misses source.new) (F.reads source.old) (F.reads source.new))
        name.now) }
    ensures stays { Stays (F.content source.old) (F.content source.new) }
{
    let path = normal_name(alloc, name)?;
    let place = Bytes::from_slice(alloc, path.as_bytes())?;
    let written = Bytes::from_slice(alloc, name.as_bytes())?;
    match source.read(alloc, path.as_str(), FileKind::Any) {
        Ok(script) => match functions_of(alloc, script.as_slice()) {
            Ok(functions) => Ok(functions),
            Err(Unread::Script(refusal)) => Err(LoadRefusal::Script {
                name: place,
                refusal,
            }),
            Err(Unread::Memory) => Err(LoadRefusal::Memory),
        },
        Err(FileFault::Missing) => Err(LoadRefusal::Missing { name: written }),
        Err(FileFault::Failed) => Err(LoadRefusal::ReadFault { name: place }),
        Err(FileFault::TooLong { len }) => Err(LoadRefusal::TooLong { name: place, len }),
        Err(FileFault::Memory) => Err(LoadRefusal::Memory),
    }
}

// The functions of a script that includes nothing.
fn functions_of(alloc: Global, script: &[u8]) -> Result<Vec<FunctionDef>, Unread>
    requires { length script.now ≤ FILE_LIMIT }
    ensures ok { IfOk result (λ functions. StubsOf script.now (functions_of_list functions.items)) }
    ensures err { IfErr result (IsUnreadStub script.now) }
{
    let tokens = lex(alloc, script)?;
    let tree = parse(alloc, tokens.as_slice())?;
    let mut found = Vec::new(alloc);
    find_includes(alloc, &tree, &mut found)?;
    if found.len() > 0 {
        let at = include_place(tokens.as_slice());
        return Err(Unread::Script(ScriptRefusal::Parse(ParseRefusal::NotInSubset { at })));
    }
    let FileTree { functions, .. } = tree;
    Ok(functions)
}

// Whether a token is the word that begins an include.
fn begins_include(token: &Token) -> bool
    ensures { result ≡ is_include_word (plain_token token.now).kind }
{
    match &token.kind {
        TokenKind::Name(word) => matches!(
            keyword_named(word.as_slice()),
            Some(Keyword::Include | Keyword::Require)
        ),
        _ => false,
    }
}

// The place of the first such word, and 0 where there is none.
#[tactic(auto, unfolding(crate::specs::Stubs::include_place))]
fn include_place(tokens: &[Token]) -> u32
    ensures { result ≡ include_place (plain_tokens tokens.now) }
{
    for token in tokens {
        if begins_include(token) {
            return token.at;
        }
    }
    0
}
