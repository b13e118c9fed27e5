//! The sizes of statements, with what stands for their includes.

ghost use Rattle.std.specs.Prelude.{◌≡◌};
ghost use Rattle.php_syntax.specs.Trees.{plain_expr, plain_stmt, stmts_of, arms_of, exprs_of, maybe_of, params_of_list, functions_of_list};
ghost use Rattle.program_files.specs.View.{files_of};
ghost use Rattle.program_sizes.specs.Sizes as sizes;

use crate::expressions::{size_of_expr, size_of_exprs, size_of_maybe};
use crate::size::Size;
use php_syntax::tree::{Expr, FunctionDef, Param, Stmt};
use program_files::ScriptFiles;
use text_base::Bytes;

// The size in a table of what stands for an include.
fn size_at(files: &ScriptFiles, table: &[Size], path: &Bytes) -> Size
    ensures { result ≡ sizes.size_at (files_of files.now) table.now path.now }
{
    match files.place_of(path) {
        Some(place) => match table.get(place) {
            Some(size) => *size,
            None => zero(),
        },
        None => zero(),
    }
}

// No size, as it stands.
fn zero() -> Size
    ensures { result ≡ sizes.none }
{
    Size {
        places: 0,
        nodes: 0,
        height: 0,
    }
}

// The statements of an include.
fn size_of_include(files: &ScriptFiles, table: &[Size], path: &Bytes) -> Size
    ensures { result ≡ sizes.capped
        (sizes.included (sizes.size_at (files_of files.now) table.now path.now)) }
{
    size_at(files, table, path).included()
}

/// The size of statements, by a table of the sizes of what files stand for.
#[cycle(statements)]
pub(crate) fn size_of_stmts(files: &ScriptFiles, table: &[Size], stmts: &[Stmt]) -> Size
    ensures { result ≡ sizes.capped
        (sizes.of_stmts (sizes.size_at (files_of files.now) table.now) (stmts_of stmts.now)) }
{
    let mut size = Size::none();
    for stmt in stmts {
        size = size.beside(size_of_stmt(files, table, stmt));
    }
    size
}

// Of the arms of an `if`.
#[cycle(statements)]
fn size_of_arms(files: &ScriptFiles, table: &[Size], arms: &[(Expr, Vec<Stmt>)]) -> Size
    ensures { result ≡ sizes.capped
        (sizes.of_arms (sizes.size_at (files_of files.now) table.now) (arms_of arms.now)) }
{
    let mut size = Size::none();
    for arm in arms {
        let test = size_of_expr(&arm.0);
        let body = size_of_stmts(files, table, arm.1.as_slice());
        size = size.beside(test.beside(body));
    }
    size
}

// Of an `if`.
#[cycle(statements)]
fn size_of_if(
    files: &ScriptFiles,
    table: &[Size],
    arms: &[(Expr, Vec<Stmt>)],
    otherwise: &[Stmt],
) -> Size
    ensures { result ≡ sizes.capped (sizes.above (sizes.beside
        (sizes.of_arms (sizes.size_at (files_of files.now) table.now) (arms_of arms.now))
        (sizes.of_stmts (sizes.size_at (files_of files.now) table.now) (stmts_of otherwise.now)))) }
{
    let arms = size_of_arms(files, table, arms);
    arms.beside(size_of_stmts(files, table, otherwise)).above()
}

// Of a loop, by the size of its head.
#[cycle(statements)]
fn size_of_loop(files: &ScriptFiles, table: &[Size], test: &Expr, body: &[Stmt]) -> Size
    ensures { result ≡ sizes.capped (sizes.above (sizes.beside (sizes.of_expr (plain_expr test.now))
        (sizes.of_stmts (sizes.size_at (files_of files.now) table.now) (stmts_of body.now)))) }
{
    let head = size_of_expr(test);
    head.beside(size_of_stmts(files, table, body)).above()
}

// Of a `do`.
#[cycle(statements)]
fn size_of_do(files: &ScriptFiles, table: &[Size], body: &[Stmt], test: &Expr) -> Size
    ensures { result ≡ sizes.capped (sizes.above (sizes.beside
        (sizes.of_stmts (sizes.size_at (files_of files.now) table.now) (stmts_of body.now))
        (sizes.of_expr (plain_expr test.now)))) }
{
    let body = size_of_stmts(files, table, body);
    body.beside(size_of_expr(test)).above()
}

// Of what stands before the body of a `for`.
fn size_of_head(begin: &[Expr], test: &Option<Expr>, next: &[Expr]) -> Size
    ensures { result ≡ sizes.capped
        (sizes.beside (sizes.beside (sizes.of_exprs (exprs_of begin.now))
        (sizes.of_maybe (maybe_of test.now))) (sizes.of_exprs (exprs_of next.now))) }
{
    let first = size_of_exprs(begin).beside(size_of_maybe(test));
    first.beside(size_of_exprs(next))
}

// Of a `for`, by the size of its head.
#[cycle(statements)]
fn size_of_for(
    files: &ScriptFiles,
    table: &[Size],
    begin: &[Expr],
    test: &Option<Expr>,
    next: &[Expr],
    body: &[Stmt],
) -> Size
    ensures { result ≡ sizes.capped
        (sizes.above (sizes.beside (sizes.beside (sizes.beside (sizes.of_exprs (exprs_of begin.now))
        (sizes.of_maybe (maybe_of test.now))) (sizes.of_exprs (exprs_of next.now)))
        (sizes.of_stmts (sizes.size_at (files_of files.now) table.now) (stmts_of body.now)))) }
{
    let head = size_of_head(begin, test, next);
    head.beside(size_of_stmts(files, table, body)).above()
}

// Of a statement in which no part stands.
fn plain_size() -> Size
    ensures { result ≡ sizes.capped (sizes.above sizes.none) }
{
    Size::none().above()
}

// Of a statement over expressions.
fn size_over(exprs: &[Expr]) -> Size
    ensures { result ≡ sizes.capped (sizes.above (sizes.of_exprs (exprs_of exprs.now))) }
{
    size_of_exprs(exprs).above()
}

// Over an expression.
fn size_over_one(expr: &Expr) -> Size
    ensures { result ≡ sizes.capped (sizes.above (sizes.of_expr (plain_expr expr.now))) }
{
    size_of_expr(expr).above()
}

// Over an expression that may be left out.
fn size_over_maybe(expr: &Option<Expr>) -> Size
    ensures { result ≡ sizes.capped (sizes.above (sizes.of_maybe (maybe_of expr.now))) }
{
    size_of_maybe(expr).above()
}

// Of a statement.
#[cycle(statements)]
#[tactic(auto, using(php_syntax::proofs::Views::views), unfolding(crate::specs::Sizes::of_stmts))]
fn size_of_stmt(files: &ScriptFiles, table: &[Size], stmt: &Stmt) -> Size
    ensures { result ≡ sizes.capped
        (sizes.of_stmt (sizes.size_at (files_of files.now) table.now) (plain_stmt stmt.now)) }
{
    match stmt {
        Stmt::Inline(_) => plain_size(),
        Stmt::Echo(exprs) => size_over(exprs.as_slice()),
        Stmt::Run(expr) => size_over_one(expr),
        Stmt::If(arms, last) => size_of_if(files, table, arms.as_slice(), last.as_slice()),
        Stmt::While(test, body) => size_of_loop(files, table, test, body.as_slice()),
        Stmt::DoWhile(body, test) => size_of_do(files, table, body.as_slice(), test),
        Stmt::For(begin, test, next, body) => size_of_for(
            files,
            table,
            begin.as_slice(),
            test,
            next.as_slice(),
            body.as_slice(),
        ),
        Stmt::Each(array, _, _, body) => size_of_loop(files, table, array, body.as_slice()),
        Stmt::Break => plain_size(),
        Stmt::Continue => plain_size(),
        Stmt::Return(value) => size_over_maybe(value),
        Stmt::Include(path) => size_of_include(files, table, path),
        Stmt::Quit(value) => size_over_maybe(value),
    }
}

// Of parameters, each over its default.
fn size_of_params(params: &[Param]) -> Size
    ensures { result ≡ sizes.capped (sizes.of_params (params_of_list params.now)) }
{
    let mut size = Size::none();
    for param in params {
        size = size.beside(size_over_maybe(&param.default));
    }
    size
}

/// Of functions.
pub(crate) fn size_of_functions(
    files: &ScriptFiles,
    table: &[Size],
    functions: &[FunctionDef],
) -> Size
    ensures { result ≡ sizes.capped
        (sizes.of_functions (sizes.size_at (files_of files.now) table.now)
        (functions_of_list functions.now)) }
{
    let mut size = Size::none();
    for function in functions {
        let params = size_of_params(function.params.as_slice());
        let body = size_of_stmts(files, table, function.body.as_slice());
        size = size.beside(params.beside(body).above());
    }
    size
}
