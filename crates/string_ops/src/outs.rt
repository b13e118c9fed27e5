//! Lists of what a move puts out.

ghost use Rattle.std.specs.Prelude.{◌≡◌, [], ◌∷◌, IfOk, map, take, length};

use fst_core::Out;
use std::alloc::Global;
use text_base::NoMemory;

/// One thing.
pub(crate) fn one(alloc: Global, first: Out) -> Result<Vec<Out>, NoMemory>
    ensures { IfOk result (λ out. out.items ≡ first ∷ []) }
{
    let mut out = Vec::new(alloc);
    out.push(first)?;
    Ok(out)
}

/// Two things.
pub(crate) fn two(alloc: Global, first: Out, second: Out) -> Result<Vec<Out>, NoMemory>
    ensures { IfOk result (λ out. out.items ≡ first ∷ second ∷ []) }
{
    let mut out = one(alloc, first)?;
    out.push(second)?;
    Ok(out)
}

/// The bytes of a text.
pub(crate) fn literal(alloc: Global, text: &str) -> Result<Vec<Out>, NoMemory>
    ensures { IfOk result (λ out. out.items ≡ map Out.Byte text.now) }
{
    let mut out = Vec::new(alloc);
    for byte in text.as_bytes() {
        out.push(Out::Byte(*byte))?;
    }
    Ok(out)
}
