//! The names of attributes that stand.

ghost use Rattle.std.specs.Prelude.{◌≡◌, ◌∷◌, [], ◌++◌, ◌||◌, IfOk, map, bytes_eq};
ghost use Rattle.dtd_model.specs.Table.{declared_of};
ghost use Rattle.page_steps.specs.TagSteps as steps;

use dtd_model::AttrRule;
use open_pieces::{Characters, NameList};
use page_rules::{is_named, is_word};
use std::alloc::Global;
use text_base::{Bytes, NoMemory};

/// Whether the name is among these.
pub fn is_among(names: &NameList, name: &[char]) -> bool
    ensures { result ≡ steps.is_among names.now name.now }
{
    for other in names.as_slice() {
        if name == other.as_slice() {
            return true;
        }
    }
    false
}

/// Whether the name, which is ASCII, is among these.
pub fn is_name_among(names: &NameList, name: &Bytes) -> bool
    ensures { result ≡ steps.is_among names.now name.now }
{
    for other in names.as_slice() {
        if is_named(name, other.as_slice()) {
            return true;
        }
    }
    false
}

// Whether the declared name is among these, or the one.
fn is_there(names: &NameList, name: &[char], declared: &Bytes) -> bool
    ensures { result ≡ (steps.is_among names.now declared.now || bytes_eq name.now declared.now) }
{
    is_name_among(names, declared) || is_word(name, declared.as_slice())
}

// The characters of an ASCII name.
fn characters(alloc: Global, name: &Bytes) -> Result<Characters, NoMemory>
    ensures { IfOk result (λ cs. cs ≡ name.now) }
{
    let mut characters = Characters::new(alloc);
    for byte in name.as_slice() {
        characters.push(char::from(*byte))?;
    }
    Ok(characters)
}

/// The declared names that are among these, or the one, in the order of their declaration.
pub fn names_with(
    alloc: Global,
    rules: &Vec<AttrRule>,
    names: &NameList,
    name: &[char],
) -> Result<NameList, NoMemory>
    ensures { IfOk result
        (λ more. more ≡ steps.names_with (map declared_of rules.now.items) names.now name.now) }
{
    let mut more = NameList::new(alloc);
    for rule in rules {
        if is_there(names, name, &rule.name) {
            more.push(characters(alloc, &rule.name)?)?;
        }
    }
    Ok(more)
}

/// These names, and one more at the end.
pub fn names_then(alloc: Global, names: &NameList, name: &Characters) -> Result<NameList, NoMemory>
    ensures { IfOk result (λ more. more ≡ names.now ++ name.now ∷ []) }
{
    let mut more = names.copy(alloc)?;
    more.push(name.copy(alloc)?)?;
    Ok(more)
}
