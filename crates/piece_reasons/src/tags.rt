//! Start tags, tags of empty elements and end tags.

ghost use Rattle.std.specs.Prelude.{◌≡◌, ◌∷◌, ◌++◌, ℕ, List, None, true, false, IfOk, MatchOption, MatchResult, map, codes};
ghost use Rattle.xml_text.specs.Characters.{is_blank};
ghost use Rattle.dtd_model.specs.Table.{declared_of};
ghost use Rattle.page_model.specs.Attributes.{find_rule};
ghost use Rattle.page_model.specs.Parts.{IsAttribute};
ghost use Rattle.page_model.specs.Scan.{beyond};
ghost use Rattle.page_rules.specs.Views.{attribute_of};
ghost use Rattle.piece_reasons.specs.Causes.{IsTagName};
ghost use Rattle.piece_reasons.specs.Sites.{HasCause, table_at};
ghost use Rattle.piece_reasons.specs.Tags.{HasCome, IsName, IsTagOf, IsWhole, IsWrong};
ghost use Rattle.piece_reasons.specs.Tags as spec;
ghost use Rattle.piece_reasons.specs.Openers.{is_named};

use crate::attributes::{First, declared_fault, has_named, text_fault};
use crate::finding::{begins_close, lowered, name};
use crate::reasons::{AttributeReason, PieceReason};
use crate::site::Site;
use dtd_model::AttrRule;
use page_rules::{Attribute, Class, element, must_stand, split};
use std::alloc::Global;
use text_base::{Elem, NoMemory};

// A start tag of a declared element.
#[derive(Drop)]
struct OpenTag<'t, 'i, 'd> {
    site: &'t Site<'i, 'd>,
    element: Elem,
    name: &'t [char],
    rules: &'t Vec<AttrRule>,
}

/// Why no lawful start tag or tag of an empty element stands behind `<`.
pub fn start_tag(alloc: Global, site: &Site<'_, '_>, rest: &[char]) -> Result<PieceReason, NoMemory>
    ensures { IfOk result (HasCause site.now (60 ∷ rest.now)) }
{
    let Some((name, behind)) = name(rest) else {
        return Ok(PieceReason::Other);
    };
    let Some(element) = element(site.indexed, name) else {
        return not_declared(alloc, site, rest, name, behind);
    };
    let tag = OpenTag {
        site,
        element,
        name,
        rules: &site.indexed.dtd.elements[usize::from(element.0)].attributes,
    };
    tag.reason(alloc, behind)
}

/// Why no lawful end tag stands behind `</`.
pub fn end_tag(alloc: Global, site: &Site<'_, '_>, rest: &[char]) -> Result<PieceReason, NoMemory>
    ensures { IfOk result (HasCause site.now (codes "</" ++ rest.now)) }
{
    let Some((name, behind)) = name(rest) else {
        return Ok(PieceReason::NotMarkup);
    };
    if element(site.indexed, name).is_none() {
        return not_declared(alloc, site, rest, name, behind);
    }
    let (_, end) = split(behind, Class::Blank);
    if begins_close(end) {
        Ok(PieceReason::Other)
    } else {
        Ok(PieceReason::TagNotClosed {
            at: site.before(end),
        })
    }
}

// The element of the tag whose name stands there is not declared.
fn not_declared(
    alloc: Global,
    site: &Site<'_, '_>,
    at: &[char],
    name: &[char],
    behind: &[char],
) -> Result<PieceReason, NoMemory>
    requires { find_rule (table_at site.now).elements name.now ≡ None }
    ensures { IfOk result (λ reason. (cs : List ℕ) → IsTagName cs at.now name.now behind.now
        → HasCause site.now cs reason) }
{
    let lower = lowered(alloc, name)?;
    Ok(PieceReason::ElementNotDeclared {
        name: site.span(at, behind),
        lower: element(site.indexed, lower.as_slice()),
    })
}

impl OpenTag<'_, '_, '_> {
    // Why the tag is not lawful, of which this stands behind the name.
    fn reason(&self, alloc: Global, behind: &[char]) -> Result<PieceReason, NoMemory>
        requires { IsTagOf (table_at self.now.site.now) self.now.name.now self.now.element
            (map declared_of self.now.rules.now.items) }
        ensures { IfOk result (λ reason. (rest : List ℕ)
            → IsName rest self.now.name.now behind.now
            → HasCause self.now.site.now (60 ∷ rest) reason) }
    {
        let mut done = Vec::new(alloc);
        let mut left = behind;
        while let Some(first) = first(left) {
            match self.attribute(alloc, done.as_slice(), &first)? {
                Ok((attribute, rest)) => {
                    done.push(attribute)?;
                    left = rest;
                }
                Err(reason) => {
                    return Ok(PieceReason::Attribute {
                        element: self.element,
                        name: self.site.span(first.at, first.behind),
                        reason,
                    });
                }
            }
        }
        Ok(self.end(done.as_slice(), left))
    }

    // The attribute behind others, and what stands behind it; or what is wrong with it.
    fn attribute<'c>(
        &self,
        alloc: Global,
        done: &[Attribute<'c>],
        first: &First<'c>,
    ) -> Result<Result<(Attribute<'c>, &'c [char]), AttributeReason>, NoMemory>
        ensures { IfOk result (λ judged. MatchResult judged
            (λ z. IsWhole first.now.left.now (attribute_of z.0) z.1.now × IsAttribute (attribute_of z.0))
            (λ why. IsWrong (table_at self.now.site.now).entities
            (map declared_of self.now.rules.now.items) (map attribute_of done.now)
            first.now.left.now first.now.name.now first.now.behind.now why)) }
    {
        let (attribute, rest) = match first.whole() {
            Ok(whole) => whole,
            Err(why) => return Ok(Err(why)),
        };
        if let Some(why) = text_fault(&attribute) {
            return Ok(Err(why));
        }
        match declared_fault(alloc, self.site, self.rules, done, &attribute)? {
            Some(why) => Ok(Err(why)),
            None => Ok(Ok((attribute, rest))),
        }
    }

    // Why the tag is not lawful behind its attributes.
    fn end(&self, done: &[Attribute<'_>], left: &[char]) -> PieceReason
        requires declared { IsTagOf (table_at self.now.site.now) self.now.name.now self.now.element
            (map declared_of self.now.rules.now.items) }
        requires ended { is_named (beyond is_blank left.now) ≡ false }
        ensures { (rest behind : List ℕ) → IsName rest self.now.name.now behind
            → HasCome behind (map attribute_of done.now) left.now
            → HasCause self.now.site.now (60 ∷ rest) result }
    {
        let (_, end) = split(left, Class::Blank);
        if is_tag_end(end) {
            self.missing(done)
        } else {
            PieceReason::TagNotClosed {
                at: self.site.before(end),
            }
        }
    }

    // An attribute that has to stand and does not.
    fn missing(&self, done: &[Attribute<'_>]) -> PieceReason
        requires { IsTagOf (table_at self.now.site.now) self.now.name.now self.now.element
            (map declared_of self.now.rules.now.items) }
        ensures { (rest behind left : List ℕ) → IsName rest self.now.name.now behind
            → HasCome behind (map attribute_of done.now) left
            → spec.is_tag_end (beyond is_blank left) ≡ true
            → HasCause self.now.site.now (60 ∷ rest) result }
    {
        for (number, rule) in self.rules.as_slice().iter().enumerate() {
            if must_stand(self.name, rule) && !has_named(done, &rule.name) {
                return PieceReason::AttributeMissing {
                    element: self.element,
                    attribute: number,
                };
            }
        }
        PieceReason::Other
    }
}

// The beginning of the attribute there, where one begins.
fn first(left: &[char]) -> Option<First<'_>>
    ensures { MatchOption result (is_named (beyond is_blank left.now) ≡ false)
        (λ first. first.left.now ≡ left.now) }
{
    let (_, at) = split(left, Class::Blank);
    let (name, behind) = name(at)?;
    Some(First {
        left,
        at,
        name,
        behind,
    })
}

// Whether the end of a start tag or of the tag of an empty element stands there.
fn is_tag_end(cs: &[char]) -> bool
    ensures { result ≡ spec.is_tag_end cs.now }
{
    match cs.split_first() {
        None => false,
        Some(('>', _)) => true,
        Some(('/', rest)) => begins_close(rest),
        Some(_) => false,
    }
}
