//! The trees of files with each include by its found name.

ghost use Rattle.std.specs.Prelude.{◌≡◌, ◌||◌, true, map, IfOk, OnOk};
ghost use Rattle.php_syntax.specs.Trees.{plain_file, plain_stmt, stmts_of, arms_of, functions_of_list, more_stmts, no_stmts};
ghost use Rattle.script_grammar.specs.Rules as rules;
ghost use Rattle.program_rules.specs.Files.{has_one_place};
ghost use Rattle.program_rules.specs.Bodies.{with_bodies, with_bodies_in, with_bodies_in_arms, with_body, file_with_bodies};
ghost use Rattle.program_files.specs.Order.{names_of};
ghost use Rattle.program_files.specs.View.{files_of};
ghost use Rattle.program_files.specs.Steps.{placed, placed_or_same, placed_include, placed_file, is_among, AreUtf8};

use crate::files::ScriptFiles;
use crate::places::has_one_place;
use indexmap::IndexSet;
use io_edge::name_beside;
use php_syntax::tree::{Expr, FileTree, FunctionDef, Stmt};
use std::alloc::Global;
use text_base::{Bytes, NoMemory};

// Where the includes of a file are found: by the names that were read, the normal name of the
// program's file, and that of the file itself.
#[derive(Debug, Drop)]
struct Naming<'a> {
    names: &'a IndexSet<Bytes>,
    main: &'a str,
    file: &'a str,
}

// Whether an include is found at its first place: that is the only one, or was read.
fn is_at_first(naming: &Naming, written: &str, first: &Bytes) -> bool
    ensures { result ≡ (has_one_place written.now || is_among naming.now.names.now.keys first.now) }
{
    if has_one_place(written) {
        return true;
    }
    naming.names.contains(first)
}

// The name of an include: that of its first place, where it is found there, and else that of its
// second.
fn place_of(alloc: Global, naming: &Naming, written: &str) -> Result<Bytes, NoMemory>
    ensures { IfOk result (λ name. name ≡ placed naming.now.names.now.keys naming.now.main.now
        naming.now.file.now written.now) }
{
    let place = name_beside(alloc, naming.main, written)?;
    let first = Bytes::from_slice(alloc, place.as_bytes())?;
    if is_at_first(naming, written, &first) {
        return Ok(first);
    }
    let place = name_beside(alloc, naming.file, written)?;
    let second = Bytes::from_slice(alloc, place.as_bytes())?;
    Ok(second)
}

// The same of bytes; what is no UTF-8 stays.
fn found_name(alloc: Global, naming: &Naming, written: &Bytes) -> Result<Bytes, NoMemory>
    ensures { IfOk result (λ name. name ≡ placed_or_same naming.now.names.now.keys
        naming.now.main.now naming.now.file.now written.now) }
{
    match str::from_utf8(written.as_slice()) {
        Ok(written) => place_of(alloc, naming, written),
        Err(_) => written.copy(alloc),
    }
}

// Holds what stays as it is, while what stands beside it is changed.
fn stays<T>(_part: &mut T)
    ensures { _part.new ≡ _part.old }
{}

// Gives each include among statements its found name.
#[cycle(naming)]
fn name_in(alloc: Global, naming: &Naming, stmts: &mut Vec<Stmt>) -> Result<(), NoMemory>
    ensures { OnOk result (stmts_of stmts.new.items ≡ with_bodies
        (placed_include naming.now.names.now.keys naming.now.main.now naming.now.file.now)
        (stmts_of stmts.old.items)) }
{
    for place in 0..stmts.len() {
        name_of(alloc, naming, &mut stmts[place])?;
    }
    Ok(())
}

// Those in the arms of an `if`.
#[cycle(naming)]
fn name_in_arms(
    alloc: Global,
    naming: &Naming,
    arms: &mut Vec<(Expr, Vec<Stmt>)>,
) -> Result<(), NoMemory>
    ensures { OnOk result (arms_of arms.new.items ≡ with_bodies_in_arms
        (placed_include naming.now.names.now.keys naming.now.main.now naming.now.file.now)
        (arms_of arms.old.items)) }
{
    for place in 0..arms.len() {
        name_in(alloc, naming, &mut arms[place].1)?;
    }
    Ok(())
}

// Those in a statement.
#[cycle(naming)]
#[tactic(auto, using(php_syntax::proofs::Views::views), unfolding(program_rules::specs::Bodies::with_bodies))]
fn name_of(alloc: Global, naming: &Naming, stmt: &mut Stmt) -> Result<(), NoMemory>
    ensures { OnOk result (more_stmts (plain_stmt stmt.new) no_stmts ≡ with_bodies_in
        (placed_include naming.now.names.now.keys naming.now.main.now naming.now.file.now)
        (plain_stmt stmt.old)) }
{
    match stmt {
        Stmt::If(arms, otherwise) => {
            name_in_arms(alloc, naming, arms)?;
            name_in(alloc, naming, otherwise)?;
            Ok(())
        }
        Stmt::While(test, body) => {
            name_in(alloc, naming, body)?;
            stays(test);
            Ok(())
        }
        Stmt::DoWhile(body, test) => {
            name_in(alloc, naming, body)?;
            stays(test);
            Ok(())
        }
        Stmt::For(begin, test, next, body) => {
            name_in(alloc, naming, body)?;
            stays(begin);
            stays(test);
            stays(next);
            Ok(())
        }
        Stmt::Each(array, key, value, body) => {
            name_in(alloc, naming, body)?;
            stays(array);
            stays(key);
            stays(value);
            Ok(())
        }
        Stmt::Include(path) => {
            *path = found_name(alloc, naming, path)?;
            Ok(())
        }
        Stmt::Inline(_) => Ok(()),
        Stmt::Echo(_) => Ok(()),
        Stmt::Run(_) => Ok(()),
        Stmt::Break => Ok(()),
        Stmt::Continue => Ok(()),
        Stmt::Return(_) => Ok(()),
        Stmt::Quit(_) => Ok(()),
    }
}

// Those in the bodies of functions.
fn name_in_functions(
    alloc: Global,
    naming: &Naming,
    functions: &mut Vec<FunctionDef>,
) -> Result<(), NoMemory>
    ensures { OnOk result (functions_of_list functions.new.items ≡ map (with_body
        (placed_include naming.now.names.now.keys naming.now.main.now naming.now.file.now))
        (functions_of_list functions.old.items)) }
{
    for place in 0..functions.len() {
        name_in(alloc, naming, &mut functions[place].body)?;
    }
    Ok(())
}

// Those of a file, the text of whose name is UTF-8.
fn name_in_file(
    alloc: Global,
    names: &IndexSet<Bytes>,
    main: &str,
    file: &Bytes,
    tree: &mut FileTree,
) -> Result<(), NoMemory>
    requires { rules.is_utf8 file.now ≡ true }
    ensures { OnOk result (plain_file tree.new ≡ file_with_bodies
        (placed_include names.now.keys main.now file.now) (plain_file tree.old)) }
{
    match str::from_utf8(file.as_slice()) {
        Ok(file) => {
            let naming = Naming { names, main, file };
            name_in(alloc, &naming, &mut tree.body)?;
            name_in_functions(alloc, &naming, &mut tree.functions)?;
            Ok(())
        }
        Err(_) => unreachable!(),
    }
}

/// Files with each include by its found name. Takes time linear in the statements and in the names
/// of the includes.
pub(crate) fn with_found_names(
    alloc: Global,
    main: &str,
    files: ScriptFiles,
) -> Result<ScriptFiles, NoMemory>
    requires { AreUtf8 (names_of (files_of files)) }
    ensures { IfOk result (λ found. files_of found
        ≡ map (placed_file (names_of (files_of files)) main.now) (files_of files)) }
{
    let ScriptFiles { names, mut trees } = files;
    for place in 0..trees.len() {
        match names.get_index(place) {
            Some(name) => name_in_file(alloc, &names, main, name, &mut trees[place])?,
            None => unreachable!(),
        }
    }
    Ok(ScriptFiles { names, trees })
}
