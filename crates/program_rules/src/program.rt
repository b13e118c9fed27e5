//! Programs: a script with its includes replaced by the statements of their files, and one table of
//! the functions of all files.
//!
//! `specs/Lawful.antt` says what the type keeps, `specs/View.antt` how a program is seen. Whoever
//! reads files makes one; whoever runs or lowers one asks nothing more of it.

ghost use Rattle.program_rules.specs.Lawful.{program_with, HasNoInclude, IsOfGrammar, FitsGrammar};
ghost use Rattle.std.specs.Prelude.{◌≤◌};
ghost use Rattle.php_syntax.specs.Height.{file_nodes, file_height};
ghost use Rattle.program_rules.specs.declared.limits.TheConstants.{NODE_LIMIT, PROGRAM_HEIGHT_LIMIT};
ghost use Rattle.program_rules.specs.Limits.{as_file};
ghost use Rattle.program_rules.specs.Rules.{KeepsRules};

use php_syntax::tree::{FunctionDef, Stmt};

/// A program (PHP manual, "include", "User-defined functions").
///
/// The type keeps that no include is left in it, that it has the forms of the grammar and keeps the
/// rules beside it, that no function is defined twice or has the name of one of PHP's, that each
/// call is of a function that there is and hands in as many arguments as it takes, and that there
/// are at most 200,000 nodes and a height of at most 1,000.
#[derive(Debug, Drop)]
pub struct Program {
    /// The statements outside functions, in their order.
    pub main: Vec<Stmt>,
    /// The functions of all files.
    pub functions: Vec<FunctionDef>,
    pub ghost whole: { HasNoInclude (program_with main.items functions.items) },
    pub ghost of_grammar: { IsOfGrammar (program_with main.items functions.items) },
    pub ghost fits: { FitsGrammar (program_with main.items functions.items) },
    pub ghost rules: { KeepsRules (program_with main.items functions.items) },
    pub ghost nodes_within: { file_nodes (as_file (program_with main.items functions.items)) ≤ NODE_LIMIT },
    pub ghost height_within: { file_height (as_file (program_with main.items functions.items)) ≤ PROGRAM_HEIGHT_LIMIT },
}
