//! What a file includes.

ghost use Rattle.std.specs.Prelude.{◌≡◌, [], ◌∷◌, ◌++◌, OnOk};
ghost use Rattle.php_syntax.specs.Trees.{plain_file, plain_stmt, stmts_of, arms_of, functions_of_list};
ghost use Rattle.program_rules.specs.Includes as includes;

use php_syntax::tree::{Expr, FileTree, FunctionDef, Stmt};
use std::alloc::Global;
use text_base::{Bytes, NoMemory};

// One more path.
fn put(found: &mut Vec<Bytes>, path: Bytes) -> Result<(), NoMemory>
    ensures { OnOk result (found.new.items ≡ found.old.items ++ path ∷ []) }
{
    found.push(path)?;
    Ok(())
}

// The paths of the includes among statements.
#[cycle(includes)]
#[tactic(auto, unfolding(program_rules::specs::Includes::includes_in))]
fn find_in(alloc: Global, stmts: &[Stmt], found: &mut Vec<Bytes>) -> Result<(), NoMemory>
    ensures { OnOk result
        (found.new.items ≡ found.old.items ++ includes.includes_in (stmts_of stmts.now)) }
{
    for stmt in stmts {
        find_of(alloc, stmt, found)?;
    }
    Ok(())
}

// Those in the arms of an `if`.
#[cycle(includes)]
#[tactic(auto, unfolding(program_rules::specs::Includes::includes_in))]
fn find_in_arms(
    alloc: Global,
    arms: &[(Expr, Vec<Stmt>)],
    found: &mut Vec<Bytes>,
) -> Result<(), NoMemory>
    ensures { OnOk result
        (found.new.items ≡ found.old.items ++ includes.includes_in_arms (arms_of arms.now)) }
{
    for arm in arms {
        find_in(alloc, arm.1.as_slice(), found)?;
    }
    Ok(())
}

// Those in a statement.
#[cycle(includes)]
#[tactic(auto, using(php_syntax::proofs::Views::views, crate::proofs::IncludeLemmas::ends), unfolding(program_rules::specs::Includes::includes_in))]
fn find_of(alloc: Global, stmt: &Stmt, found: &mut Vec<Bytes>) -> Result<(), NoMemory>
    ensures { OnOk result
        (found.new.items ≡ found.old.items ++ includes.includes_of (plain_stmt stmt.now)) }
{
    match stmt {
        Stmt::If(arms, otherwise) => {
            find_in_arms(alloc, arms.as_slice(), found)?;
            find_in(alloc, otherwise.as_slice(), found)
        }
        Stmt::While(_, body) => find_in(alloc, body.as_slice(), found),
        Stmt::DoWhile(body, _) => find_in(alloc, body.as_slice(), found),
        Stmt::For(_, _, _, body) => find_in(alloc, body.as_slice(), found),
        Stmt::Each(_, _, _, body) => find_in(alloc, body.as_slice(), found),
        Stmt::Include(path) => put(found, path.copy(alloc)?),
        Stmt::Inline(_) => Ok(()),
        Stmt::Echo(_) => Ok(()),
        Stmt::Run(_) => Ok(()),
        Stmt::Break => Ok(()),
        Stmt::Continue => Ok(()),
        Stmt::Return(_) => Ok(()),
        Stmt::Quit(_) => Ok(()),
    }
}

// Those in the bodies of functions.
#[tactic(auto, unfolding(program_rules::specs::Includes::includes_in_functions))]
fn find_in_functions(
    alloc: Global,
    functions: &[FunctionDef],
    found: &mut Vec<Bytes>,
) -> Result<(), NoMemory>
    ensures { OnOk result
        (found.new.items ≡ found.old.items
        ++ includes.includes_in_functions (functions_of_list functions.now)) }
{
    for function in functions {
        find_in(alloc, function.body.as_slice(), found)?;
    }
    Ok(())
}

/// The paths that a file includes, those of its body first and then those of its functions, put
/// behind those found before.
#[tactic(auto, using(crate::proofs::IncludeLemmas::ends), unfolding(program_rules::specs::Includes::includes_of_file))]
pub fn find_includes(alloc: Global, tree: &FileTree, found: &mut Vec<Bytes>) -> Result<(), NoMemory>
    ensures { OnOk result
        (found.new.items ≡ found.old.items ++ includes.includes_of_file (plain_file tree.now)) }
{
    find_in(alloc, tree.body.as_slice(), found)?;
    find_in_functions(alloc, tree.functions.as_slice(), found)?;
    Ok(())
}
