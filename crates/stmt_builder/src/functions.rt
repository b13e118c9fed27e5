//! Functions: their names, parameters and bodies.

ghost use Rattle.std.specs.Prelude.{◌≡◌, ◌<◌, IfOk, Some, None, [], MatchOption, true, false};
ghost use Rattle.php_syntax.specs.Trees.{maybe_of, params_of_list};
ghost use Rattle.script_grammar.specs.Rules.{is_new_name};
ghost use Rattle.php_syntax.specs.Height.{maybe_height, params_height};
ghost use Rattle.stmt_machine.specs.Actions.{function_action, parameter_action, function_body_action, function_end_action};
ghost use Rattle.stmt_machine.specs.Made as plain;
ghost use Rattle.stmt_machine.specs.Made.{apply_stmt};
ghost use Rattle.stmt_builder.specs.Views.{made_of, row_of, kept_functions, with_default};
ghost use Rattle.stmt_builder.specs.Answers.{Does};

use crate::body::{Body, Row, empty_row};
use crate::maker::Maker;
use crate::names::lower_case;
use indexmap::IndexSet;
use php_syntax::tree::{Expr, FunctionDef, Param};
use script_grammar::reserved::is_writable;
use std::alloc::Global;
use std::marker::Model;
use text_base::limits::HEIGHT_LIMIT;
use text_base::{Bytes, NoMemory};

/// The parameters of a function so far, whose names differ.
#[derive(Debug, Drop)]
pub struct Parameters {
    params: Vec<Param>,
    names: IndexSet<Bytes>,
    height: u32,
}

impl Model for Parameters {
    ghost use Rattle.std.specs.Prelude.{List};
    ghost use Rattle.std.specs.Coded.{codes};
    ghost use Rattle.php_syntax.specs.declared.tree.Param.{Param};
    ghost use Rattle.php_syntax.specs.contracts.tree.Expr as expr;
    ghost use Rattle.stmt_builder.specs.Names.{ParametersAre};

    ghost Value = { List Param };

    ghost coded = { Prim.hlevel (codes, expr.the_row.coded) };

    ghost view = { λ p. p.params.items };

    ghost invariant = { λ p. ParametersAre p.params.items p.names.keys p.height };
}

impl Parameters {
    /// No parameters. Takes no memory.
    pub fn none(alloc: Global) -> Parameters
        ensures { result ≡ [] }
    {
        Parameters {
            params: Vec::new(alloc),
            names: IndexSet::new(alloc),
            height: 0,
        }
    }

    /// The parameters and one more, whose default is so high, where its name is new.
    pub fn with(
        self,
        alloc: Global,
        name: &Bytes,
        default: Option<Expr>,
        height: u32,
    ) -> Result<Option<Parameters>, NoMemory>
        requires { (height ≡ maybe_height (maybe_of default)) × (height < HEIGHT_LIMIT) }
        ensures { IfOk result (λ found. MatchOption found
            (is_new_name name.now (params_of_list self) ≡ false)
            (λ more. (is_new_name name.now (params_of_list self) ≡ true)
            × (params_of_list more
            ≡ plain.add_param (params_of_list self)
            (with_default name.now (maybe_of default))))) }
    {
        let Parameters {
            mut params,
            mut names,
            height: highest,
        } = self;
        let new = names.insert(name.copy(alloc)?)?;
        if !new {
            return Ok(None);
        }
        let name = name.copy(alloc)?;
        params.push(Param { name, default })?;
        Ok(Some(Parameters {
            params,
            names,
            height: highest.max(height + 1),
        }))
    }

    /// The parameters, and the height of the highest, 0 where there is none.
    pub fn into_parts(self) -> (Vec<Param>, u32)
        ensures { (result.0.items ≡ self) × (result.1 ≡ params_height (params_of_list self)) }
    {
        let Parameters { params, height, .. } = self;
        (params, height)
    }
}

/// A function whose parameters and body are being read.
#[derive(Debug, Drop)]
pub struct Header {
    /// Its name as it is spelled.
    pub name: Bytes,
    /// Its parameters so far.
    pub params: Parameters,
}

/// The functions so far, each at most 200 high.
#[derive(Debug, Drop)]
pub struct Functions {
    /// The functions.
    pub functions: Vec<FunctionDef>,
    /// The height of the highest, 0 where there is none.
    pub height: u32,
}

impl Functions {
    /// No functions. Takes no memory.
    pub fn none(alloc: Global) -> Functions
        ensures { kept_functions (Some result) ≡ Some ([], 0) }
    {
        Functions {
            functions: Vec::new(alloc),
            height: 0,
        }
    }
}

// The functions with one more.
fn put_function(
    alloc: Global,
    header: Header,
    row: Option<Row>,
    functions: Option<Functions>,
) -> Result<Option<Functions>, NoMemory>
    ensures { IfOk result (λ found. kept_functions found
        ≡ plain.put_function (header.name, params_of_list header.params) (row_of row)
        (kept_functions functions)) }
{
    let Some(row) = row else {
        return Ok(None);
    };
    let Some(mut functions) = functions else {
        return Ok(None);
    };
    let name = lower_case(alloc, &header.name)?;
    let (params, highest) = header.params.into_parts();
    let height = highest.max(row.height);
    if height >= HEIGHT_LIMIT {
        return Ok(None);
    }
    functions.functions.push(FunctionDef {
        name,
        params,
        body: row.stmts,
    })?;
    functions.height = functions.height.max(height + 1);
    Ok(Some(functions))
}

impl Maker {
    /// A function begins.
    #[tactic(auto, unfolding(stmt_machine::specs::Made::apply_stmt))]
    pub fn begin_function(&mut self, alloc: Global, name: &Bytes) -> Result<(), NoMemory>
        ensures { IfOk result (λ _. apply_stmt (function_action name.now) (made_of self.old)
            ≡ Some (made_of self.new)) }
    {
        self.header = Some(Header {
            name: name.copy(alloc)?,
            params: Parameters::none(alloc),
        });
        Ok(())
    }

    /// A parameter, whose default is so high.
    #[tactic(auto, unfolding(stmt_machine::specs::Made::apply_stmt))]
    pub fn parameter(
        &mut self,
        alloc: Global,
        name: &Bytes,
        default: Option<Expr>,
        height: u32,
    ) -> Result<bool, NoMemory>
        requires { (height ≡ maybe_height (maybe_of default)) × (height < HEIGHT_LIMIT) }
        ensures { IfOk result (λ done.
            Does (apply_stmt (parameter_action name.now (maybe_of default)) (made_of self.old)) done
            (made_of self.new)) }
    {
        let Some(header) = self.header.take() else {
            return Ok(false);
        };
        if !is_writable(name.as_slice()) {
            return Ok(false);
        }
        match header.params.with(alloc, name, default, height)? {
            None => Ok(false),
            Some(params) => {
                self.header = Some(Header {
                    name: header.name,
                    params,
                });
                Ok(true)
            }
        }
    }

    /// The body of the function begins.
    #[tactic(auto, unfolding(stmt_machine::specs::Made::apply_stmt))]
    pub fn begin_body(&mut self, alloc: Global) -> Result<(), NoMemory>
        ensures { IfOk result (λ _. apply_stmt function_body_action (made_of self.old)
            ≡ Some (made_of self.new)) }
    {
        self.bodies.push(Body {
            in_loop: false,
            in_function: true,
            row: empty_row(alloc),
        })?;
        Ok(())
    }

    /// The function ends.
    #[tactic(auto, unfolding(stmt_machine::specs::Made::apply_stmt))]
    pub fn end_function(&mut self, alloc: Global) -> Result<bool, NoMemory>
        ensures { IfOk result (λ done.
            Does (apply_stmt function_end_action (made_of self.old)) done (made_of self.new)) }
    {
        let Some(header) = self.header.take() else {
            return Ok(false);
        };
        let Some(body) = self.bodies.pop() else {
            return Ok(false);
        };
        let functions = self.functions.take();
        self.functions = put_function(alloc, header, body.row, functions)?;
        Ok(true)
    }
}
