//! One test of an expression: that it is so high at most, spellable and by the rules.

ghost use Rattle.std.specs.Prelude.{◌≡◌, ◌&&◌, ◌-◌};
ghost use Rattle.php_syntax.specs.Trees.{plain_expr, exprs_of, items_of, path_of, maybe_of, boxed_of, target_name, target_path};
ghost use Rattle.script_grammar.specs.Rules.{all_places};
ghost use Rattle.spellable.specs.Spellable.{is_some_exprs};
ghost use Rattle.php_writer.specs.Tested as spec;

use crate::names::{is_call_name, is_own_name, is_target};
use crate::shapes::{all_keyed, are_parts, are_places, is_integer, is_some, keyed_before_last};
use php_syntax::tree::{Expr, Target};
use script_grammar::reserved::is_known;
use script_grammar::shapes::is_place;

/// Whether an expression is good, where it may be so high.
#[cycle(expression_tests)]
#[tactic(auto, using(crate::proofs::TestedExprs::expr_parts), unfolding(crate::specs::Tested::deep))]
pub fn is_good(expr: &Expr, room: usize) -> bool
    ensures { result ≡ spec.expr_good (plain_expr expr.now) room }
{
    0 < room && has_good_parts(expr, room - 1)
}

// Whether both are good.
#[cycle(expression_tests)]
fn are_both_good(first: &Expr, second: &Expr, room: usize) -> bool
    ensures { result ≡ (spec.expr_good (plain_expr first.now) room &&
        spec.expr_good (plain_expr second.now) room) }
{
    is_good(first, room) && is_good(second, room)
}

/// Whether what may be left out is good.
#[cycle(expression_tests)]
#[tactic(auto, unfolding(crate::specs::Tested::expr_good))]
pub fn is_maybe_good(expr: &Option<Expr>, room: usize) -> bool
    ensures { result ≡ spec.maybe_good (maybe_of expr.now) room }
{
    match expr {
        Some(expr) => is_good(expr, room),
        None => true,
    }
}

// Whether the middle operand of a choice is good.
#[cycle(expression_tests)]
#[tactic(auto, unfolding(crate::specs::Tested::expr_good))]
fn is_middle_good(expr: &Option<Box<Expr>>, room: usize) -> bool
    ensures { result ≡ spec.maybe_good (boxed_of expr.now) room }
{
    match expr {
        Some(expr) => is_good(expr, room),
        None => true,
    }
}

/// Whether each is good.
#[cycle(expression_tests)]
#[tactic(auto, unfolding(crate::specs::Tested::expr_good))]
pub fn are_good(exprs: &[Expr], room: usize) -> bool
    ensures { result ≡ spec.exprs_good (exprs_of exprs.now) room }
{
    for expr in exprs {
        if !is_good(expr, room) {
            return false;
        }
    }
    true
}

// Whether an item is good.
#[cycle(expression_tests)]
fn is_good_item(item: &(Option<Expr>, Expr), room: usize) -> bool
    ensures { result ≡ (spec.maybe_good (maybe_of item.now.0) room &&
        spec.expr_good (plain_expr item.now.1) room) }
{
    is_maybe_good(&item.0, room) && is_good(&item.1, room)
}

// Whether each item is good.
#[cycle(expression_tests)]
#[tactic(auto, unfolding(crate::specs::Tested::expr_good))]
fn are_good_items(items: &[(Option<Expr>, Expr)], room: usize) -> bool
    ensures { result ≡ spec.items_good (items_of items.now) room }
{
    for item in items {
        if !is_good_item(item, room) {
            return false;
        }
    }
    true
}

// Whether each key is good.
#[cycle(expression_tests)]
#[tactic(auto, unfolding(crate::specs::Tested::expr_good))]
fn are_good_keys(keys: &[Option<Expr>], room: usize) -> bool
    ensures { result ≡ spec.path_good (path_of keys.now) room }
{
    for key in keys {
        if !is_maybe_good(key, room) {
            return false;
        }
    }
    true
}

// Whether a target is good.
#[cycle(expression_tests)]
#[tactic(auto, unfolding(crate::specs::Tested::deep))]
fn is_good_target(target: &Target, room: usize) -> bool
    ensures { result ≡ spec.deep room (spec.is_target (target_name target.now)
        && spec.path_good (target_path target.now) (room - 1)) }
{
    0 < room && is_target(target.name.as_slice()) && are_good_keys(target.path.as_slice(), room - 1)
}

// Whether an expression has good parts.
#[cycle(expression_tests)]
#[tactic(auto, using(php_syntax::proofs::Views::views))]
fn has_good_parts(expr: &Expr, room: usize) -> bool
    ensures { result ≡ spec.parts_good (plain_expr expr.now) room }
{
    match expr {
        Expr::Null | Expr::Flag(_) | Expr::Text(_) | Expr::Super(_) => true,
        Expr::Int(number) => is_integer(number),
        Expr::Var(name) => is_own_name(name.as_slice()) && is_known(name.as_slice()),
        Expr::Member(a, b) => are_both_good(a, b, room),
        Expr::ArrayOf(items) => are_good_items(items.as_slice(), room),
        Expr::Join(parts) => are_good(parts.as_slice(), room) && are_parts(parts.as_slice()),
        Expr::Neg(a) | Expr::Not(a) => is_good(a, room),
        Expr::Arith(_, a, b) => are_both_good(a, b, room),
        Expr::Compare(_, a, b) => are_both_good(a, b, room),
        Expr::And(a, b) | Expr::Or(a, b) => are_both_good(a, b, room),
        Expr::Coalesce(a, b) => are_both_good(a, b, room),
        Expr::Choice(a, m, b) => are_both_good(a, b, room) && is_middle_good(m, room),
        Expr::Isset(parts) => are_good_places(parts.as_slice(), room),
        Expr::Empty(place) => is_good(place, room) && is_place(place),
        Expr::Assign(target, value) => {
            is_good_target(target, room)
                && keyed_before_last(target.path.as_slice())
                && is_good(value, room)
        }
        Expr::Update(_, target, value) => {
            is_good_target(target, room)
                && all_keyed(target.path.as_slice())
                && is_good(value, room)
        }
        Expr::Step { name, .. } => is_target(name.as_slice()),
        Expr::Call(name, values) => {
            is_call_name(name.as_slice()) && are_good(values.as_slice(), room)
        }
    }
}

// Whether each is a good place, and there is one.
#[cycle(expression_tests)]
fn are_good_places(places: &[Expr], room: usize) -> bool
    ensures { result ≡ (spec.exprs_good (exprs_of places.now) room &&
        (is_some_exprs (exprs_of places.now) && all_places (exprs_of places.now))) }
{
    are_good(places, room) && is_some(places) && are_places(places)
}
