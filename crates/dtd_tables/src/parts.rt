//! What declarations say, elements and attribute lists apart.

ghost use Rattle.std.specs.Prelude as prelude;
ghost use Rattle.std.specs.Prelude.{◌≡◌, ◌≢◌, ◌++◌, ◌∷◌, [], true, false, map, OnOk, IfOk, IfErr, MatchOption};
ghost use Rattle.dtd_model.specs.Lawful.{is_distinct};
ghost use Rattle.dtd_model.specs.Table.{rule_of};
ghost use Rattle.dtd_entities.specs.Positions.{written_of};
ghost use Rattle.dtd_declarations.specs.Views.{said_of, WentWrong};
ghost use Rattle.dtd_texts.specs.Reading.{Written as SpecWritten};
ghost use Rattle.dtd_texts.specs.Went.{Went, refused};
ghost use Rattle.dtd_texts.specs.Tables as spec;
ghost use Rattle.dtd_texts.specs.Tables.{Said as SpecSaid, element_names, rules_of};
ghost use Rattle.dtd_tables.specs.Causes.{IsTableCause, NoneRefused, FirstRefused};
ghost use Rattle.dtd_tables.specs.Updates.{lists_in};
ghost use Rattle.dtd_tables.specs.Views.{AddsSaid, AreParts, FaultCause, IsNameCause};

use crate::names::names_of;
use crate::refusal::TableRefusal;
use dtd_declarations::{Fault, Names, Said, read_declaration};
use dtd_entities::Written;
use dtd_model::{AttrRule, ElementRule};
use std::alloc::Global;
use text_base::{Bytes, NoMemory};

/// An attribute list for the element of this name.
#[derive(Debug, Drop)]
pub struct List {
    pub name: Bytes,
    pub rules: Vec<AttrRule>,
}

/// The elements without attributes, and the attribute lists.
#[derive(Debug, Drop)]
pub struct Parts {
    pub elements: Vec<ElementRule>,
    pub lists: Vec<List>,
}

fn put_element(elements: &mut Vec<ElementRule>, rule: ElementRule) -> Result<(), NoMemory>
    ensures { OnOk result (elements.new.items ≡ elements.old.items ++ rule ∷ []) }
{
    elements.push(rule)?;
    Ok(())
}

fn put_list(lists: &mut Vec<List>, list: List) -> Result<(), NoMemory>
    ensures { OnOk result (lists.new.items ≡ lists.old.items ++ list ∷ []) }
{
    lists.push(list)?;
    Ok(())
}

// What one more declaration says.
#[tactic(auto, unfolding(dtd_texts::specs::Tables::with_others))]
fn put(alloc: Global, parts: &mut Parts, said: Said) -> Result<(), NoMemory>
    ensures { OnOk result (AddsSaid parts.old parts.new (said_of said)) }
{
    match said {
        Said::Element(name, content) => put_element(
            &mut parts.elements,
            ElementRule {
                name,
                content,
                attributes: Vec::new(alloc),
            },
        ),
        Said::Attributes(name, rules) => put_list(&mut parts.lists, List { name, rules }),
    }
}

// The refusal of a declaration that begins at this place.
fn refusal_of(fault: Fault, at: u64) -> TableRefusal
    ensures { FaultCause fault at result }
{
    match fault {
        Fault::Refused => TableRefusal::Refused(at),
        Fault::LeftOut => TableRefusal::LeftOut(at),
        Fault::TooDeep => TableRefusal::Limit(201),
        Fault::Undeclared(name) => TableRefusal::Undeclared(name),
        Fault::Memory => TableRefusal::Memory,
    }
}

/// What the declarations say, where these elements are declared.
pub fn parts_of(alloc: Global, names: &Names, written: &[Written]) -> Result<Parts, TableRefusal>
    requires names { names.now ≡ element_names (map written_of written.now) }
    requires once { is_distinct (element_names (map written_of written.now)) ≡ true }
    ensures says { IfOk result (λ parts. AreParts names.now (map written_of written.now) parts) }
    ensures refused { IfErr result (IsTableCause (map written_of written.now)) }
{
    let mut parts = Parts {
        elements: Vec::new(alloc),
        lists: Vec::new(alloc),
    };
    for one in written {
        match read_declaration(alloc, names, one.text.as_slice()) {
            Ok(said) => put(alloc, &mut parts, said)?,
            Err(fault) => return Err(refusal_of(fault, one.at)),
        }
    }
    Ok(parts)
}

// Whether the text is no declaration, where these elements are declared.
fn is_refused(alloc: Global, names: &Names, one: &Written) -> Result<bool, NoMemory>
    ensures refused { IfOk result
        (λ b. b ≡ true → spec.said names.now (written_of one.now).text ≡ refused) }
    ensures other { IfOk result
        (λ b. b ≡ false → spec.said names.now (written_of one.now).text ≢ refused) }
{
    match read_declaration(alloc, names, one.text.as_slice()) {
        Ok(_) => Ok(false),
        Err(fault) => is_refusal(fault),
    }
}

// Whether the fault is that of a text that is no declaration.
fn is_refusal(fault: Fault) -> Result<bool, NoMemory>
    ensures refused { (w : Went SpecSaid) → WentWrong fault w
        → IfOk result (λ b. b ≡ true → w ≡ refused) }
    ensures other { (w : Went SpecSaid) → WentWrong fault w
        → IfOk result (λ b. b ≡ false → w ≢ refused) }
{
    match fault {
        Fault::Refused => Ok(true),
        Fault::LeftOut => Ok(false),
        Fault::TooDeep => Ok(false),
        Fault::Undeclared(_) => Ok(false),
        Fault::Memory => Err(NoMemory),
    }
}

// Where the first of these declarations begins that is none, where these elements are declared.
fn refused_among(alloc: Global, names: &Names, written: &[Written]) -> Result<Option<u64>, NoMemory>
    requires { names.now ≡ element_names (map written_of written.now) }
    ensures { IfOk result
        (λ at. MatchOption at (NoneRefused (map written_of written.now))
        (FirstRefused (map written_of written.now))) }
{
    for one in written {
        if is_refused(alloc, names, one)? {
            return Ok(Some(one.at));
        }
    }
    Ok(None)
}

// Without the names of the elements no declaration is judged.
fn not_judged(refusal: TableRefusal) -> Result<Option<u64>, NoMemory>
    ensures { (all : prelude.List SpecWritten) → IsNameCause (element_names all) refusal →
        IfOk result (λ at. MatchOption at (NoneRefused all) (FirstRefused all)) }
{
    match refusal {
        TableRefusal::Twice(_) => Ok(None),
        TableRefusal::Undeclared(_) => Ok(None),
        TableRefusal::Refused(_) => Ok(None),
        TableRefusal::LeftOut(_) => Ok(None),
        TableRefusal::Limit(_) => Ok(None),
        TableRefusal::Memory => Err(NoMemory),
    }
}

/// Where the first of these declarations begins that is none of XML 1.0 (3.2 and 3.3), in time
/// linear in their text; none where no such is found, as where an element is declared twice.
pub fn first_refused(alloc: Global, written: &[Written]) -> Result<Option<u64>, NoMemory>
    ensures { IfOk result
        (λ at. MatchOption at (NoneRefused (map written_of written.now))
        (FirstRefused (map written_of written.now))) }
{
    match names_of(alloc, written) {
        Ok(names) => refused_among(alloc, &names, written),
        Err(refusal) => not_judged(refusal),
    }
}
