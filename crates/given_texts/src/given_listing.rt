//! Productions, listed.

ghost use Rattle.std.specs.Prelude.{◌≡◌, length, IfOk};
ghost use Rattle.std.specs.List.{All};
ghost use Rattle.given_texts.specs.Rows.{IsOrdered, IsFor, AreFor};

use cfg_grammar::{Production, Right, Symbol};
use std::alloc::Global;
use text_base::{ByteRange, NoMemory, Nt};

/// The production of a row.
fn production_of(row: (u64, u8, u8, Option<u64>)) -> Production
    requires { IsOrdered row }
    ensures { IsFor row result }
{
    let byte = Symbol::Range(ByteRange {
        lo: row.1,
        hi: row.2,
    });
    let right = match row.3 {
        None => Right::One(byte),
        Some(n) => Right::Two(byte, Symbol::Nt(Nt(n))),
    };
    Production {
        left: Nt(row.0),
        right,
    }
}

/// The productions of rows.
pub(crate) fn row_productions(
    alloc: Global,
    rows: &[(u64, u8, u8, Option<u64>)],
) -> Result<Vec<Production>, NoMemory>
    requires { All IsOrdered rows.now }
    ensures each { IfOk result (λ ps. AreFor rows.now ps.items) }
    ensures len { IfOk result (λ ps. length ps.items ≡ length rows.now) }
{
    let mut productions = Vec::new(alloc);
    for row in rows {
        productions.push(production_of(*row))?;
    }
    Ok(productions)
}
