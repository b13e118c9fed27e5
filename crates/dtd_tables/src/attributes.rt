//! The attributes of an element, the first declaration of each.

ghost use Rattle.std.specs.Prelude.{◌≡◌, ◌≤◌, length, map, IfErr, IfOk, OnOk, ◌++◌, ◌∷◌, []};
ghost use Rattle.dtd_model.specs.Lawful.{attribute_limit};
ghost use Rattle.dtd_model.specs.Table.{declared_of};
ghost use Rattle.dtd_texts.specs.Tables as spec;
ghost use Rattle.dtd_tables.specs.Updates.{with_one};
ghost use Rattle.dtd_tables.specs.Views.{IsCrowded};

use crate::refusal::TableRefusal;
use dtd_model::AttrRule;
use text_base::{Bytes, NoMemory};

// Whether an attribute of this name is there.
fn is_declared(rules: &[AttrRule], name: &Bytes) -> bool
    ensures { result ≡ spec.is_declared (map declared_of rules.now) name.now }
{
    for rule in rules {
        if *name == rule.name {
            return true;
        }
    }
    false
}

fn push(rules: &mut Vec<AttrRule>, rule: AttrRule) -> Result<(), NoMemory>
    ensures { OnOk result (rules.new.items ≡ rules.old.items ++ rule ∷ []) }
{
    rules.push(rule)?;
    Ok(())
}

// Puts an attribute behind the others, where none of its name is there.
fn add(rules: &mut Vec<AttrRule>, rule: AttrRule) -> Result<(), TableRefusal>
    requires { length rules.old.items ≤ attribute_limit }
    ensures added { IfOk result
        (λ done. map declared_of rules.new.items
        ≡ with_one (map declared_of rules.old.items) (declared_of rule)) }
    ensures few { IfOk result (λ done. length rules.new.items ≤ attribute_limit) }
    ensures many { IfErr result
        (IsCrowded (with_one (map declared_of rules.old.items) (declared_of rule))) }
{
    if is_declared(rules.as_slice(), &rule.name) {
        return Ok(());
    }
    if rules.len() >= 64 {
        return Err(TableRefusal::Limit(65));
    }
    push(rules, rule)?;
    Ok(())
}

/// Puts attributes behind the others, but for those whose name is there. An element has 64 at most.
pub fn add_all(rules: &mut Vec<AttrRule>, more: Vec<AttrRule>) -> Result<(), TableRefusal>
    requires { length rules.old.items ≤ attribute_limit }
    ensures added { IfOk result (λ done. map declared_of rules.new.items
        ≡ spec.with_others (map declared_of rules.old.items) (map declared_of more.items)) }
    ensures few { IfOk result (λ done. length rules.new.items ≤ attribute_limit) }
    ensures many { IfErr result
        (IsCrowded (spec.with_others (map declared_of rules.old.items)
        (map declared_of more.items))) }
{
    for rule in more {
        add(rules, rule)?;
    }
    Ok(())
}
