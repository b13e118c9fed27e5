//! The sum of a concatenation.

ghost use Rattle.std.specs.Prelude.{◌≡◌, ◌⊎◌, ◌++◌, ◌∷◌, ℕ, List, [], IfOk};
ghost use Rattle.tag_sums.specs.Nesting.{Nest, torn, nest, match_tags, join};
ghost use Rattle.dyck_balance.specs.Meeting.{Matched};

use crate::sum::{NestingSum, Shape};
use std::alloc::Global;
use text_base::NoMemory;

/// How many openers the closers match, or none where one does not.
fn matched(openers: &[u16], closers: &[u16]) -> Option<usize>
    ensures { Matched openers.now closers.now result }
{
    let mut pairs = 0;
    while pairs < openers.len() && pairs < closers.len() {
        if closers[pairs] != openers[pairs] {
            return None;
        }
        pairs += 1;
    }
    Some(pairs)
}

/// The elements of one list and then of another.
fn one_then(alloc: Global, first: &[u16], second: &[u16]) -> Result<Vec<u16>, NoMemory>
    ensures { IfOk result (λ v. v.items ≡ first.now ++ second.now) }
{
    let mut all = first.to_vec(alloc)?;
    all.extend_from_slice(second)?;
    Ok(all)
}

/// Where no opener or no closer is left to match.
#[tactic(auto, using(crate::proofs::NestingLemmas::rest_joins))]
fn join_rest(
    alloc: Global,
    closers: &[u16],
    outer: &[u16],
    more: &[u16],
    inner: &[u16],
) -> Result<NestingSum, NoMemory>
    requires { (outer.now ≡ []) ⊎ (more.now ≡ []) }
    ensures { IfOk result (λ sum. sum ≡ match_tags closers.now outer.now more.now inner.now) }
{
    let closers = one_then(alloc, closers, more)?;
    let openers = one_then(alloc, inner, outer)?;
    Ok(NestingSum {
        shape: Shape::Tags { closers, openers },
    })
}

/// The sum of what the one stands for and then what the other does.
pub fn joined(alloc: Global, a: &NestingSum, b: &NestingSum) -> Result<NestingSum, NoMemory>
    ensures { IfOk result (λ sum. sum ≡ join a.now b.now) }
{
    match (&a.shape, &b.shape) {
        (
            Shape::Tags { closers, openers },
            Shape::Tags {
                closers: next_closers,
                openers: next_openers,
            },
        ) => match matched(openers.as_slice(), next_closers.as_slice()) {
            Some(pairs) => join_rest(
                alloc,
                closers.as_slice(),
                &openers[pairs..],
                &next_closers[pairs..],
                next_openers.as_slice(),
            ),
            None => Ok(NestingSum { shape: Shape::Torn }),
        },
        _ => Ok(NestingSum { shape: Shape::Torn }),
    }
}
