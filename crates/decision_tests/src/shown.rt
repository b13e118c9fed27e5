//! The sentence of a derivation, letter by letter, with each node looked at beside its production.

use crate::grammars::{letter, symbol};
use cfg_grammar::Symbol;
use derivations::{Node, Part, Parts};
use std::alloc::Global;
use text_base::NoMemory;

/// The nonterminal that a node is of.
fn left_of(text: &[u8], node: Node) -> u8 {
    letter(text, (node.production as usize).wrapping_mul(3))
}

/// The letters of a part, where it is one of this symbol.
fn part_letters(
    alloc: Global,
    text: &[u8],
    nodes: &[Node],
    known: &[Vec<u8>],
    part: Part,
    wanted: u8,
) -> Result<Option<Vec<u8>>, NoMemory> {
    match part {
        Part::Byte(_) => Ok(None),
        Part::Token(token) => {
            if symbol(wanted) == Symbol::Token(token) {
                return Ok(Some([wanted].as_slice().to_vec(alloc)?));
            }
            Ok(None)
        }
        Part::Inner(place) => match (nodes.get(place as usize), known.get(place as usize)) {
            (Some(node), Some(letters)) => {
                if left_of(text, *node) == wanted {
                    return Ok(Some(letters.as_slice().to_vec(alloc)?));
                }
                Ok(None)
            }
            _ => Ok(None),
        },
    }
}

/// The letters of a node, where it is a use of its production.
fn node_letters(
    alloc: Global,
    text: &[u8],
    nodes: &[Node],
    known: &[Vec<u8>],
    node: Node,
) -> Result<Option<Vec<u8>>, NoMemory> {
    let place = (node.production as usize).wrapping_mul(3);
    let first = letter(text, place.wrapping_add(1));
    let second = letter(text, place.wrapping_add(2));
    match node.parts {
        Parts::Empty => {
            if first != b'.' {
                return Ok(None);
            }
            Ok(Some(Vec::new(alloc)))
        }
        Parts::One(a) => {
            if second != b'.' {
                return Ok(None);
            }
            part_letters(alloc, text, nodes, known, a, first)
        }
        Parts::Two(a, b) => {
            let Some(mut letters) = part_letters(alloc, text, nodes, known, a, first)? else {
                return Ok(None);
            };
            let Some(more) = part_letters(alloc, text, nodes, known, b, second)? else {
                return Ok(None);
            };
            letters.extend_from_slice(more.as_slice())?;
            Ok(Some(letters))
        }
    }
}

/// The letters of the last node, where all are uses of productions and it is one of 0.
pub fn shown(alloc: Global, text: &[u8], nodes: &[Node]) -> Result<Option<Vec<u8>>, NoMemory> {
    let mut known = Vec::new(alloc);
    for node in nodes {
        match node_letters(alloc, text, nodes, known.as_slice(), *node)? {
            Some(letters) => known.push(letters)?,
            None => return Ok(None),
        }
    }
    match nodes.last() {
        Some(node) => {
            if left_of(text, *node) == b'0' {
                return Ok(known.pop());
            }
            Ok(None)
        }
        None => Ok(None),
    }
}
