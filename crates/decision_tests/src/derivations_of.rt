//! Whether a list of nodes is a derivation by a grammar, node by node.

use cfg_grammar::{Grammar, Production, Right, Symbol};
use derivations::{Derivation, Node, Part, Parts};
use text_base::Nt;

// Whether the node is of a production with this left side.
fn is_of(productions: &[Production], node: Node, left: Nt) -> bool {
    match productions.get(node.production as usize) {
        Some(production) => production.left == left,
        None => false,
    }
}

// Whether the part stands for the symbol.
fn fits(productions: &[Production], nodes: &[Node], symbol: Symbol, part: Part) -> bool {
    match (symbol, part) {
        (Symbol::Range(range), Part::Byte(byte)) => range.lo <= byte && byte <= range.hi,
        (Symbol::Nt(left), Part::Inner(place)) => match nodes.get(place as usize) {
            Some(node) => is_of(productions, *node, left),
            None => false,
        },
        _ => false,
    }
}

// Whether the node is a use of its production.
fn is_use(productions: &[Production], nodes: &[Node], node: Node) -> bool {
    let Some(production) = productions.get(node.production as usize) else {
        return false;
    };
    match (production.right, node.parts) {
        (Right::Empty, Parts::Empty) => true,
        (Right::One(a), Parts::One(p)) => fits(productions, nodes, a, p),
        (Right::Two(a, b), Parts::Two(p, q)) => {
            fits(productions, nodes, a, p) && fits(productions, nodes, b, q)
        }
        _ => false,
    }
}

/// Whether each node is a use of a production of the grammar, and the last one of its start.
pub fn is_by(grammar: &Grammar, derivation: &Derivation) -> bool {
    let productions = grammar.productions.as_slice();
    let nodes = derivation.nodes.as_slice();
    for node in nodes {
        if !is_use(productions, nodes, *node) {
            return false;
        }
    }
    match nodes.last() {
        Some(root) => is_of(productions, *root, grammar.start),
        None => false,
    }
}
