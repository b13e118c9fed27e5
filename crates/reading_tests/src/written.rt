// Trees, and the files that are written of them.

use php_syntax::tree::{ArithSign, Expr, FileTree, Stmt};
use php_writer::{well_formed, write_tree};
use std::alloc::Global;
use std::test::Fail;
use text_base::{Bytes, NoMemory};

fn variable(alloc: Global, name: &str) -> Result<Expr, NoMemory> {
    Ok(Expr::Var(Bytes::from_slice(alloc, name.as_bytes())?))
}

fn arithmetic(alloc: Global, sign: ArithSign, a: Expr, b: Expr) -> Result<Expr, NoMemory> {
    Ok(Expr::Arith(sign, Box::new(alloc, a)?, Box::new(alloc, b)?))
}

// The tree of a file of one statement.
fn alone(alloc: Global, stmt: Stmt) -> Result<FileTree, NoMemory> {
    let mut body = Vec::new(alloc);
    body.push(stmt)?;
    Ok(FileTree {
        body,
        functions: Vec::new(alloc),
    })
}

// The tree of a file that echoes the expression.
fn echoing(alloc: Global, expr: Expr) -> Result<FileTree, NoMemory> {
    let mut exprs = Vec::new(alloc);
    exprs.push(expr)?;
    alone(alloc, Stmt::Echo(exprs))
}

// The tree of a file of an `exit` with this argument.
fn quitting(alloc: Global, value: Option<Expr>) -> Result<FileTree, NoMemory> {
    alone(alloc, Stmt::Quit(value))
}

// The tree of a file without statements.
fn empty(alloc: Global) -> FileTree {
    FileTree {
        body: Vec::new(alloc),
        functions: Vec::new(alloc),
    }
}

// A sum as a factor.
fn sum_as_factor(alloc: Global) -> Result<Expr, NoMemory> {
    let sum = arithmetic(alloc, ArithSign::Add, variable(alloc, "a")?, Expr::Int(20))?;
    arithmetic(alloc, ArithSign::Mul, sum, variable(alloc, "b")?)
}

// So many minus signs before a variable.
fn negated(alloc: Global, times: usize) -> Result<Expr, NoMemory> {
    let mut expr = variable(alloc, "a")?;
    for _ in 0..times {
        expr = Expr::Neg(Box::new(alloc, expr)?);
    }
    Ok(expr)
}

#[test]
fn written_files(rt: HostRuntime) -> Result<(), Fail> {
    let alloc = rt.alloc();
    let text = Expr::Text(Bytes::from_slice(alloc, b"it's")?);
    for (tree, wanted) in [
        (empty(alloc), "<?php "),
        (
            echoing(alloc, sum_as_factor(alloc)?)?,
            "<?php echo ( $a + 20 ) * $b ; ",
        ),
        (quitting(alloc, None)?, "<?php exit ; "),
        (quitting(alloc, Some(text))?, "<?php exit ( 'it\\'s' ) ; "),
    ] {
        assert!(rt; well_formed(&tree), "{wanted}");
        let file = write_tree(alloc, &tree)?;
        assert_eq!(rt; file.as_slice(), wanted.as_bytes());
    }
    Ok(())
}

#[test]
fn trees_that_no_file_spells(rt: HostRuntime) -> Result<(), Fail> {
    let alloc = rt.alloc();
    for (name, tree) in [
        ("a negative integer", echoing(alloc, Expr::Int(-1))?),
        ("no name", echoing(alloc, variable(alloc, "1a")?)?),
        ("no parts", echoing(alloc, Expr::Join(Vec::new(alloc)))?),
        ("a status", quitting(alloc, Some(Expr::Int(3)))?),
        (
            "another variable",
            echoing(alloc, variable(alloc, "argv")?)?,
        ),
        ("too high", echoing(alloc, negated(alloc, 198)?)?),
    ] {
        assert!(rt; !well_formed(&tree), "{name}");
    }
    let low = echoing(alloc, negated(alloc, 197)?)?;
    assert!(rt; well_formed(&low));
    Ok(())
}
