//! The parameter entities that are declared.

ghost use Rattle.std.specs.Prelude.{◌≡◌, ◌++◌, ◌∷◌, [], map, IfOk, None};
ghost use Rattle.dtd_texts.specs.Reading.{with_parameter, source_of};
ghost use Rattle.dtd_entities.specs.Positions.{parameter_of, plain_source, plain_found};

use crate::state::Source;
use indexmap::IndexMap;
use text_base::{Bytes, NoMemory};

fn insert(
    parameters: &mut IndexMap<Bytes, Source>,
    name: Bytes,
    source: Source,
) -> Result<(), NoMemory>
    requires { source_of (map parameter_of parameters.old.entries) name ≡ None }
    ensures { IfOk result (λ done. map parameter_of parameters.new.entries
        ≡ map parameter_of parameters.old.entries ++ parameter_of (name, source) ∷ []) }
{
    parameters.insert(name, source)?;
    Ok(())
}

/// What the parameter entity of this name stands for, where one is declared.
pub fn source_of<'a>(parameters: &'a IndexMap<Bytes, Source>, name: &Bytes) -> Option<&'a Source>
    ensures { plain_found result ≡ source_of (map parameter_of parameters.now.entries) name.now }
{
    parameters.get(name)
}

/// Declares a parameter entity, where none of this name is declared.
pub fn declare(
    parameters: &mut IndexMap<Bytes, Source>,
    name: Bytes,
    source: Source,
) -> Result<(), NoMemory>
    ensures { IfOk result (λ done. map parameter_of parameters.new.entries
        ≡ with_parameter (map parameter_of parameters.old.entries) name (plain_source source)) }
{
    match source_of(parameters, &name) {
        Some(_) => Ok(()),
        None => insert(parameters, name, source),
    }
}
