//! Generated scripts, whose functions call one another inside loops, for tests and figures.
//! Promise: `make` gives exactly the script with so many functions (`made` of specs/Made, clause
//! `ok`), and refuses a number exactly where it is no size (`IsSize`, clause `err`).
//! Used by: phpsa_tasks, phpsa_main, base_tests.
#![tactic(auto)]

ghost use Rattle.std.specs.Prelude.{◌≡◌, ◌+◌, ◌⊎◌, IfOk, IfErr};
ghost use Rattle.script_maker.specs.declared.refusal.MakeRefusal.TheVariants.{Size, Memory};
ghost use Rattle.script_maker.specs.Made.{made, IsSize};

mod lines;
mod refusal;

use crate::lines::put_script;
pub use refusal::MakeRefusal;
use std::alloc::Global;
use text_base::{Bytes, NoMemory};

/// The most functions of a generated script.
pub const FUNCTION_LIMIT: u32 = 1_000;

fn script_up_to(alloc: Global, last: u32) -> Result<Bytes, NoMemory>
    ensures { IfOk result (λ script. script ≡ made (last + 1)) }
{
    let mut script = Vec::new(alloc);
    put_script(&mut script, last)?;
    Ok(Bytes::from_vec(script))
}

/// The script with so many functions, of which each but the first calls the one before it in a
/// loop, and a page of XHTML 1.0 Strict with what the last one prints. It has 318 bytes for 1 and
/// 17,904 for 200.
///
/// # Errors
///
/// `Size` exactly where `functions` is 0 or over 1,000, and `Memory`.
pub fn make(alloc: Global, functions: u32) -> Result<Bytes, MakeRefusal>
    ensures ok { IfOk result (λ script. IsSize functions × (script ≡ made functions)) }
    ensures err { IfErr result
        (λ refusal. (refusal ≡ Memory) ⊎ (refusal ≡ Size functions) × ¬ (IsSize functions)) }
{
    if functions == 0 || functions > FUNCTION_LIMIT {
        return Err(MakeRefusal::Size { functions });
    }
    Ok(script_up_to(alloc, functions - 1)?)
}
