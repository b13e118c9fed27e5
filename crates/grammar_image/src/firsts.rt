//! The first bytes of the sentences of nodes.

ghost use Rattle.std.specs.Prelude.{◌≡◌, length, IfOk};
ghost use Rattle.derivations.specs.Lawful.{AreLawful};
ghost use Rattle.grammar_image.specs.Firsts.{first_of_part, first_of_parts, either_byte, AreFirsts};

use derivations::{Node, Part, Parts};
use std::alloc::Global;
use text_base::NoMemory;

/// The first byte of a part.
fn first_of_part(firsts: &[Option<u8>], part: Part) -> Option<u8>
    ensures { result ≡ first_of_part firsts.now part }
{
    match part {
        Part::Byte(byte) => Some(byte),
        Part::Token(_) => None,
        Part::Inner(node) => match firsts.get(node as usize) {
            Some(first) => *first,
            None => None,
        },
    }
}

/// The one byte, or else the other.
fn either(first: Option<u8>, second: Option<u8>) -> Option<u8>
    ensures { result ≡ either_byte first second }
{
    match first {
        Some(byte) => Some(byte),
        None => second,
    }
}

/// The first byte of parts.
fn first_of_parts(firsts: &[Option<u8>], parts: Parts) -> Option<u8>
    ensures { result ≡ first_of_parts firsts.now parts }
{
    match parts {
        Parts::Empty => None,
        Parts::One(a) => first_of_part(firsts, a),
        Parts::Two(a, b) => either(first_of_part(firsts, a), first_of_part(firsts, b)),
    }
}

/// For each node the first byte of its sentence.
pub(crate) fn first_bytes(alloc: Global, nodes: &[Node]) -> Result<Vec<Option<u8>>, NoMemory>
    requires { AreLawful nodes.now }
    ensures firsts { IfOk result (λ firsts. AreFirsts nodes.now firsts.items) }
    ensures all { IfOk result (λ firsts. length firsts.items ≡ length nodes.now) }
{
    let mut firsts = Vec::new(alloc);
    for node in nodes {
        let first = first_of_parts(firsts.as_slice(), node.parts);
        firsts.push(first)?;
    }
    Ok(firsts)
}
