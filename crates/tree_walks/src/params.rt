//! Copies of parameters and of what a `foreach` writes.

ghost use Rattle.std.specs.Prelude.{◌≡◌, IfOk};
ghost use Rattle.php_syntax.specs.Trees.{params_of_list};

use crate::copies::copy_maybe;
use php_syntax::tree::Param;
use std::alloc::Global;
use text_base::{Bytes, NoMemory};

/// A copy of parameters.
pub fn copy_params(alloc: Global, params: &[Param]) -> Result<Vec<Param>, NoMemory>
    ensures { IfOk result (λ copies. params_of_list copies.items ≡ params_of_list params.now) }
{
    let mut copies = Vec::new(alloc);
    for param in params {
        let name = param.name.copy(alloc)?;
        let default = copy_maybe(alloc, &param.default)?;
        copies.push(Param { name, default })?;
    }
    Ok(copies)
}

/// A copy of a variable's name that may be left out.
pub fn copy_variable(alloc: Global, name: &Option<Bytes>) -> Result<Option<Bytes>, NoMemory>
    ensures { IfOk result (λ copy. copy ≡ name.now) }
{
    match name {
        Some(name) => {
            let copy = name.copy(alloc)?;
            Ok(Some(copy))
        }
        None => Ok(None),
    }
}
