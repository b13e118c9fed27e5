//! Bodies of statements that are being read.

ghost use Rattle.std.specs.Prelude.{◌≡◌, ℕ, IfOk, Some, None, MatchOption, map, []};
ghost use Rattle.php_syntax.specs.Trees.{no_stmts};
ghost use Rattle.expr_builder.specs.Views.{plain_values};
ghost use Rattle.stmt_machine.specs.Made as plain;
ghost use Rattle.stmt_builder.specs.Views.{row_of, node_of, rows_of, plain_body, gathered_arms};

use expr_builder::value::Value;
use expr_builder::values::Values;
use php_syntax::tree::{Expr, Stmt};
use std::alloc::Global;
use text_base::limits::HEIGHT_LIMIT;
use text_base::{NoMemory, Stack};

/// Statements in a row, each at most 200 high.
#[derive(Debug, Drop)]
pub struct Row {
    /// The statements.
    pub stmts: Vec<Stmt>,
    /// The height of the highest, 0 where there is none.
    pub height: u32,
}

/// A body that is being read.
#[derive(Debug, Drop)]
pub struct Body {
    /// Whether it stands in a loop of the same function or file.
    pub in_loop: bool,
    /// Whether it stands in a function.
    pub in_function: bool,
    /// Its statements so far; none are kept where one is over 200 high.
    pub row: Option<Row>,
}

/// The arms of an `if`, each with its condition.
#[derive(Debug, Drop)]
pub struct Arms {
    /// The arms.
    pub arms: Vec<(Expr, Vec<Stmt>)>,
    /// The height of their highest part, 0 where there is none.
    pub height: u32,
}

/// No statements. Takes no memory.
pub fn empty_row(alloc: Global) -> Option<Row>
    ensures { row_of result ≡ Some (no_stmts, 0) }
{
    Some(Row {
        stmts: Vec::new(alloc),
        height: 0,
    })
}

/// A row with one more statement, whose highest part has this height.
#[tactic(auto, using(crate::proofs::RowLemmas::stmts_push))]
pub fn add(row: Option<Row>, node: Option<(Stmt, u32)>) -> Result<Option<Row>, NoMemory>
    ensures { IfOk result (λ found. row_of found ≡ plain.add_node (node_of node) (row_of row)) }
{
    let Some((stmt, height)) = node else {
        return Ok(None);
    };
    let Some(mut row) = row else {
        return Ok(None);
    };
    if height >= HEIGHT_LIMIT {
        return Ok(None);
    }
    row.stmts.push(stmt)?;
    row.height = row.height.max(height + 1);
    Ok(Some(row))
}

/// Takes the rows of so many bodies, in the order in which they were read.
pub fn take_rows(
    alloc: Global,
    bodies: &mut Stack<Body>,
    count: usize,
) -> Result<Option<Stack<Option<Row>>>, NoMemory>
    ensures { IfOk result (λ found. MatchOption found
        (plain.take_bodies count [] (map plain_body bodies.old) ≡ None)
        (λ rows. plain.take_bodies count [] (map plain_body bodies.old)
        ≡ Some (rows_of rows, map plain_body bodies.new))) }
{
    let mut rows = Stack::new(alloc);
    let mut left = count;
    'taking: while left > 0 {
        match bodies.pop() {
            None => return Ok(None),
            Some(body) => {
                rows.push(body.row)?;
                left -= 1;
            }
        }
    }
    Ok(Some(rows))
}

/// The arms of these conditions and rows, where all are kept.
#[tactic(auto, using(crate::proofs::RowLemmas::row_lemmas))]
pub fn gather_arms(
    alloc: Global,
    mut conditions: Values,
    mut rows: Stack<Option<Row>>,
) -> Result<Option<Arms>, NoMemory>
    ensures { IfOk result (λ found. gathered_arms found
        ≡ plain.gather_arms (plain_values conditions) (rows_of rows)) }
{
    let mut arms = Vec::new(alloc);
    let mut height: u32 = 0;
    'gathering: while let Some(condition) = conditions.pop() {
        match rows.pop() {
            None => return Ok(None),
            Some(row) => match condition {
                Value::Tall { .. } => return Ok(None),
                Value::Absent => return Ok(None),
                Value::Known { tree, height: own } => match row {
                    None => return Ok(None),
                    Some(row) => {
                        arms.push((tree, row.stmts))?;
                        height = height.max(own.max(row.height));
                    }
                },
            },
        }
    }
    Ok(Some(Arms { arms, height }))
}
