//! A sum as a value.

ghost use Rattle.std.specs.Prelude.{◌≡◌, ℕ, Bool, true, List, IfOk};
ghost use Rattle.std.proofs.Common.{rules};
ghost use Rattle.std.specs.Cmp.Rules.{comparing, hashing};
ghost use Rattle.tag_sums.specs.Sum.{Sum, broken, reduced};
ghost use Rattle.segment_summary.specs.Equal.{sum_eq, sum_fed};
ghost use Rattle.segment_summary.specs.Decided.{sum_per, sum_equiv, sum_alike, sum_exact};

use crate::state_set::StateSet;
use std::alloc::Global;
use std::hash::{Hash, Hasher};
use std::marker::Model;
use text_base::{Exact, NoMemory};

/// What a sum is made of.
#[derive(Debug, Drop)]
pub enum Shape {
    /// No page holds the tokens.
    Broken,
    /// For each unmatched end tag in order the states of its element from which what stands before it
    /// leads to a match; where each state is led between the last of them and the first unmatched
    /// start tag; and for each of these, the innermost first, the state behind what follows it.
    Live {
        closers: Vec<StateSet>,
        middle: Vec<Option<u16>>,
        openers: Vec<u16>,
    },
}

/// The sum of some tokens.
#[derive(Debug, Drop)]
pub struct SegmentSum {
    pub(crate) shape: Shape,
}

impl Model for SegmentSum {
    ghost use Rattle.tag_sums.specs.Sum.{Sum};
    ghost use Rattle.segment_summary.specs.View.{view_of};

    ghost Value = { Sum };

    ghost view = { λ a. view_of a.shape };
}

impl PartialEq for SegmentSum {
    ghost eq = { sum_eq };

    ghost laws = { sum_per };

    fn eq(&self, other: &SegmentSum) -> bool {
        match (&self.shape, &other.shape) {
            (Shape::Broken, Shape::Broken) => true,
            (
                Shape::Live {
                    closers,
                    middle,
                    openers,
                },
                Shape::Live {
                    closers: other_closers,
                    middle: other_middle,
                    openers: other_openers,
                },
            ) => {
                closers.as_slice() == other_closers.as_slice()
                    && middle.as_slice() == other_middle.as_slice()
                    && openers.as_slice() == other_openers.as_slice()
            }
            _ => false,
        }
    }
}

impl Eq for SegmentSum {
    ghost laws = { sum_equiv };
}

impl Hash for SegmentSum {
    ghost hash_input = { sum_fed };

    ghost respects_eq = { sum_alike };

    fn hash<H: Hasher>(&self, state: &mut H) {
        match &self.shape {
            Shape::Broken => state.write_u8(0),
            Shape::Live {
                closers,
                middle,
                openers,
            } => {
                state.write_u8(1);
                closers.hash(state);
                middle.hash(state);
                openers.hash(state);
            }
        }
    }
}

impl Exact for SegmentSum {
    ghost exact = { sum_exact };
}

fn copies(alloc: Global, sets: &[StateSet]) -> Result<Vec<StateSet>, NoMemory>
    ensures { IfOk result (λ v. v.items ≡ sets.now) }
{
    let mut all = Vec::new(alloc);
    for set in sets {
        all.push(set.copy(alloc)?)?;
    }
    Ok(all)
}

impl SegmentSum {
    /// A second sum with the same value.
    pub fn copy(&self, alloc: Global) -> Result<SegmentSum, NoMemory>
        ensures { IfOk result (λ s. s ≡ self.now) }
    {
        match &self.shape {
            Shape::Broken => Ok(SegmentSum {
                shape: Shape::Broken,
            }),
            Shape::Live {
                closers,
                middle,
                openers,
            } => Ok(SegmentSum {
                shape: Shape::Live {
                    closers: copies(alloc, closers.as_slice())?,
                    middle: middle.as_slice().to_vec(alloc)?,
                    openers: openers.as_slice().to_vec(alloc)?,
                },
            }),
        }
    }
}
