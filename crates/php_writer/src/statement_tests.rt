//! One test of a statement: that it is so high at most, spellable and by the rules.

ghost use Rattle.std.specs.Prelude.{◌≡◌, ◌&&◌, true};
ghost use Rattle.php_syntax.specs.Trees.{plain_expr, plain_stmt, exprs_of, maybe_of, stmts_of, arms_of};
ghost use Rattle.script_grammar.specs.Rules as rules;
ghost use Rattle.spellable.specs.Spellable as spelled;
ghost use Rattle.php_writer.specs.Tested as spec;

use crate::expression_tests::{are_good, is_good, is_maybe_good};
use crate::names::{is_name, is_target};
use crate::openers::is_inline;
use crate::shapes::is_some;
use php_syntax::tree::{Expr, Stmt};
use script_grammar::reserved::is_writable;
use script_grammar::shapes::is_status;
use text_base::Bytes;

// Whether bytes are UTF-8.
#[tactic(auto, using(spellable::proofs::ShapeLemmas::utf8_so, spellable::proofs::ShapeLemmas::utf8_not))]
fn is_utf8(bytes: &[u8]) -> bool
    ensures { result ≡ rules.is_utf8 bytes.now }
{
    match str::from_utf8(bytes) {
        Ok(_) => true,
        Err(_) => false,
    }
}

// Whether a variable that may be left out has a name.
fn is_maybe_name(name: &Option<Bytes>) -> bool
    ensures { result ≡ spelled.is_maybe_name name.now }
{
    match name {
        Some(name) => is_name(name.as_slice()),
        None => true,
    }
}

// Whether a variable that may be left out may be written.
fn is_maybe_writable(name: &Option<Bytes>) -> bool
    ensures { result ≡ rules.maybe_writable name.now }
{
    match name {
        Some(name) => is_writable(name.as_slice()),
        None => true,
    }
}

// Whether `exit` prints the expression, if there is one: it prints no status.
fn is_printed(value: &Option<Expr>) -> bool
    ensures { result ≡ spelled.is_printed (maybe_of value.now) }
{
    match value {
        Some(value) => !is_status(value),
        None => true,
    }
}

// Whether there is an arm.
#[tactic(auto, using(spellable::proofs::ShapeLemmas::some_arms, spellable::proofs::ShapeLemmas::no_arms_are))]
fn is_some_arm(arms: &[(Expr, Vec<Stmt>)]) -> bool
    ensures { result ≡ spelled.is_some_arms (arms_of arms.now) }
{
    !arms.is_empty()
}

// Whether what stands before the body of a `for` is good.
fn is_good_for(begin: &[Expr], test: &Option<Expr>, next: &[Expr], room: usize) -> bool
    ensures { result ≡ (spec.exprs_good (exprs_of begin.now) room &&
        (spec.maybe_good (maybe_of test.now) room && spec.exprs_good (exprs_of next.now) room)) }
{
    are_good(begin, room) && is_maybe_good(test, room) && are_good(next, room)
}

// Whether what stands before the body of a `foreach` is good.
fn is_good_each(array: &Expr, key: &Option<Bytes>, value: &Bytes, room: usize) -> bool
    ensures { result ≡ (spec.expr_good (plain_expr array.now) room &&
        ((spelled.is_maybe_name key.now && rules.maybe_writable key.now)
        && spec.is_target value.now)) }
{
    is_good(array, room)
        && (is_maybe_name(key) && is_maybe_writable(key))
        && is_target(value.as_slice())
}

/// Whether statements are good: in a loop of the same body or not, in a function or not, and
/// where they may be so high.
#[cycle(statement_tests)]
#[tactic(auto, unfolding(crate::specs::Tested::stmt_good))]
pub fn are_good_stmts(stmts: &[Stmt], in_loop: bool, in_function: bool, room: usize) -> bool
    ensures { result ≡ spec.stmts_good (stmts_of stmts.now) in_loop in_function room }
{
    for stmt in stmts {
        if !is_good_stmt(stmt, in_loop, in_function, room) {
            return false;
        }
    }
    true
}

// Whether an arm is good.
#[cycle(statement_tests)]
fn is_good_arm(arm: &(Expr, Vec<Stmt>), in_loop: bool, in_function: bool, room: usize) -> bool
    ensures { result ≡ (spec.expr_good (plain_expr arm.now.0) room &&
        spec.stmts_good (stmts_of arm.now.1.items) in_loop in_function room) }
{
    is_good(&arm.0, room) && are_good_stmts(arm.1.as_slice(), in_loop, in_function, room)
}

// Whether arms are good.
#[cycle(statement_tests)]
#[tactic(auto, unfolding(crate::specs::Tested::stmt_good))]
fn are_good_arms(arms: &[(Expr, Vec<Stmt>)], in_loop: bool, in_function: bool, room: usize) -> bool
    ensures { result ≡ spec.arms_good (arms_of arms.now) in_loop in_function room }
{
    for arm in arms {
        if !is_good_arm(arm, in_loop, in_function, room) {
            return false;
        }
    }
    true
}

// Whether a statement is good.
#[cycle(statement_tests)]
#[tactic(auto, using(crate::proofs::TestedFiles::stmt_parts), unfolding(crate::specs::Tested::deep))]
fn is_good_stmt(stmt: &Stmt, in_loop: bool, in_function: bool, room: usize) -> bool
    ensures { result ≡ spec.stmt_good (plain_stmt stmt.now) in_loop in_function room }
{
    0 < room && has_good_pieces(stmt, in_loop, in_function, room - 1)
}

// Whether a statement has good parts.
#[cycle(statement_tests)]
#[tactic(auto, using(php_syntax::proofs::Views::views))]
fn has_good_pieces(stmt: &Stmt, in_loop: bool, in_function: bool, room: usize) -> bool
    ensures { result ≡ spec.pieces_good (plain_stmt stmt.now) in_loop in_function room }
{
    match stmt {
        Stmt::Inline(text) => is_inline(text.as_slice()),
        Stmt::Echo(exprs) => is_some(exprs.as_slice()) && are_good(exprs.as_slice(), room),
        Stmt::Run(expr) => is_good(expr, room),
        Stmt::If(arms, last) => {
            (is_some_arm(arms.as_slice())
                && are_good_arms(arms.as_slice(), in_loop, in_function, room))
                && are_good_stmts(last.as_slice(), in_loop, in_function, room)
        }
        Stmt::While(test, stmts) => {
            is_good(test, room) && are_good_stmts(stmts.as_slice(), true, in_function, room)
        }
        Stmt::DoWhile(stmts, test) => {
            is_good(test, room) && are_good_stmts(stmts.as_slice(), true, in_function, room)
        }
        Stmt::For(begin, test, next, stmts) => {
            is_good_for(begin.as_slice(), test, next.as_slice(), room)
                && are_good_stmts(stmts.as_slice(), true, in_function, room)
        }
        Stmt::Each(array, key, value, stmts) => {
            is_good_each(array, key, value, room)
                && are_good_stmts(stmts.as_slice(), true, in_function, room)
        }
        Stmt::Break | Stmt::Continue => in_loop,
        Stmt::Return(value) => in_function && is_maybe_good(value, room),
        Stmt::Include(file) => is_utf8(file.as_slice()),
        Stmt::Quit(value) => is_printed(value) && is_maybe_good(value, room),
    }
}
