//! What a move puts out.

ghost use Rattle.std.specs.Prelude.{◌≡◌, ◌++◌, ◌∷◌, [], map, IfOk};
ghost use Rattle.fst_core.specs.declared.out.Out.TheVariants.{Same, Token};
ghost use Rattle.byte_readers.specs.Reading.{emitted};

use byte_readers::Emit;
use fst_core::Out;
use std::alloc::Global;
use text_base::NoMemory;

/// The tokens.
pub fn tokens_out(alloc: Global, emit: Emit) -> Result<Vec<Out>, NoMemory>
    ensures { IfOk result (λ out. out.items ≡ map Token (emitted emit)) }
{
    let mut out = Vec::new(alloc);
    match emit {
        Emit::Nothing => {}
        Emit::One(token) => out.push(Out::Token(token))?,
        Emit::Two(token, other) => {
            out.push(Out::Token(token))?;
            out.push(Out::Token(other))?;
        }
    }
    Ok(out)
}

/// The tokens, and the byte behind them.
pub fn echo_out(alloc: Global, emit: Emit) -> Result<Vec<Out>, NoMemory>
    ensures { IfOk result (λ out. out.items ≡ map Token (emitted emit) ++ Same ∷ []) }
{
    let mut out = tokens_out(alloc, emit)?;
    out.push(Out::Same)?;
    Ok(out)
}
