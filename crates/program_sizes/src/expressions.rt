//! The sizes of expressions. No include stands in one.

ghost use Rattle.std.specs.Prelude.{◌≡◌, ◌+◌, max};
ghost use Rattle.php_syntax.specs.Trees.{plain_expr, exprs_of, items_of, path_of, boxed_of, maybe_of};
ghost use Rattle.php_syntax.specs.Height.{nodes, maybe_nodes, path_nodes, height, maybe_height, path_height};
ghost use Rattle.program_sizes.specs.Sizes as sizes;

use crate::size::Size;
use php_syntax::tree::Expr;

// A node over one operand.
#[cycle(expressions)]
fn over_one(operand: &Expr) -> Size
    ensures { result ≡ sizes.capped (sizes.above (sizes.of_expr (plain_expr operand.now))) }
{
    size_of_expr(operand).above()
}

// Over two operands.
#[cycle(expressions)]
fn over_two(left: &Expr, right: &Expr) -> Size
    ensures { result ≡ sizes.capped
        (sizes.of (1 + nodes (plain_expr left.now) + nodes (plain_expr right.now))
        (1 + max (height (plain_expr left.now)) (height (plain_expr right.now)))) }
{
    size_of_expr(left).beside(size_of_expr(right)).above()
}

// Over three operands, of which the middle one, which is handed over first, may be left out.
#[cycle(expressions)]
fn over_three(middle: &Option<Box<Expr>>, left: &Expr, right: &Expr) -> Size
    ensures { result ≡ sizes.capped (sizes.of
        (1 + nodes (plain_expr left.now) + maybe_nodes (boxed_of middle.now) + nodes
        (plain_expr right.now))
        (1 + max (height (plain_expr left.now))
        (max (maybe_height (boxed_of middle.now)) (height (plain_expr right.now))))) }
{
    let first = size_of_expr(left).beside(size_of_boxed(middle));
    first.beside(size_of_expr(right)).above()
}

// Over a target, which is a node over its keys, and a value.
#[cycle(expressions)]
fn over_assignment(keys: &[Option<Expr>], value: &Expr) -> Size
    ensures { result ≡ sizes.capped
        (sizes.of (2 + path_nodes (path_of keys.now) + nodes (plain_expr value.now))
        (1 + max (1 + path_height (path_of keys.now)) (height (plain_expr value.now)))) }
{
    let target = size_of_path(keys).above();
    target.beside(size_of_expr(value)).above()
}

// Over expressions.
#[cycle(expressions)]
fn over_exprs(exprs: &[Expr]) -> Size
    ensures { result ≡ sizes.capped (sizes.above (sizes.of_exprs (exprs_of exprs.now))) }
{
    size_of_exprs(exprs).above()
}

// Over the items of an array.
#[cycle(expressions)]
fn over_items(items: &[(Option<Expr>, Expr)]) -> Size
    ensures { result ≡ sizes.capped (sizes.above (sizes.of_items (items_of items.now))) }
{
    size_of_items(items).above()
}

// An expression in a box that may be left out.
#[cycle(expressions)]
#[tactic(auto, unfolding(php_syntax::specs::Height::nodes, php_syntax::specs::Height::height))]
fn size_of_boxed(expr: &Option<Box<Expr>>) -> Size
    ensures { result ≡ sizes.capped (sizes.of_maybe (boxed_of expr.now)) }
{
    match expr {
        Some(expr) => size_of_expr(expr),
        None => Size::none(),
    }
}

/// The size of an expression that may be left out.
#[cycle(expressions)]
#[tactic(auto, unfolding(php_syntax::specs::Height::nodes, php_syntax::specs::Height::height))]
pub(crate) fn size_of_maybe(expr: &Option<Expr>) -> Size
    ensures { result ≡ sizes.capped (sizes.of_maybe (maybe_of expr.now)) }
{
    match expr {
        Some(expr) => size_of_expr(expr),
        None => Size::none(),
    }
}

/// Of expressions, side by side.
#[cycle(expressions)]
pub(crate) fn size_of_exprs(exprs: &[Expr]) -> Size
    ensures { result ≡ sizes.capped (sizes.of_exprs (exprs_of exprs.now)) }
{
    let mut size = Size::none();
    for expr in exprs {
        size = size.beside(size_of_expr(expr));
    }
    size
}

// Of the items of an array.
#[cycle(expressions)]
fn size_of_items(items: &[(Option<Expr>, Expr)]) -> Size
    ensures { result ≡ sizes.capped (sizes.of_items (items_of items.now)) }
{
    let mut size = Size::none();
    for item in items {
        let key = size_of_maybe(&item.0);
        size = size.beside(key.beside(size_of_expr(&item.1)));
    }
    size
}

// Of the keys of a path.
#[cycle(expressions)]
fn size_of_path(keys: &[Option<Expr>]) -> Size
    ensures { result ≡ sizes.capped (sizes.of_path (path_of keys.now)) }
{
    let mut size = Size::none();
    for key in keys {
        size = size.beside(size_of_maybe(key));
    }
    size
}

// A leaf.
fn leaf() -> Size
    ensures { result ≡ sizes.capped (sizes.of 1 1) }
{
    Size::none().above()
}

/// Of an expression.
#[cycle(expressions)]
#[tactic(auto, using(php_syntax::proofs::Views::views), unfolding(php_syntax::specs::Height::nodes, php_syntax::specs::Height::height))]
pub(crate) fn size_of_expr(expr: &Expr) -> Size
    ensures { result ≡ sizes.capped (sizes.of_expr (plain_expr expr.now)) }
{
    match expr {
        Expr::Null => leaf(),
        Expr::Flag(_) => leaf(),
        Expr::Int(_) => leaf(),
        Expr::Text(_) => leaf(),
        Expr::Var(_) => leaf(),
        Expr::Super(_) => leaf(),
        Expr::Member(base, key) => over_two(base, key),
        Expr::ArrayOf(items) => over_items(items.as_slice()),
        Expr::Join(parts) => over_exprs(parts.as_slice()),
        Expr::Neg(operand) => over_one(operand),
        Expr::Not(operand) => over_one(operand),
        Expr::Arith(_, left, right) => over_two(left, right),
        Expr::Compare(_, left, right) => over_two(left, right),
        Expr::And(left, right) => over_two(left, right),
        Expr::Or(left, right) => over_two(left, right),
        Expr::Coalesce(left, right) => over_two(left, right),
        Expr::Choice(test, middle, other) => over_three(middle, test, other),
        Expr::Isset(places) => over_exprs(places.as_slice()),
        Expr::Empty(place) => over_one(place),
        Expr::Assign(target, value) => over_assignment(target.path.as_slice(), value),
        Expr::Update(_, target, value) => over_assignment(target.path.as_slice(), value),
        Expr::Step { .. } => leaf(),
        Expr::Call(_, arguments) => over_exprs(arguments.as_slice()),
    }
}
