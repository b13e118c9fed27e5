//! A sum as a value.

ghost use Rattle.std.specs.Prelude.{◌≡◌, ℕ, Bool, true, List, IfOk};
ghost use Rattle.std.specs.Cmp.Rules.{comparing, hashing};
ghost use Rattle.tag_sums.specs.Nesting.{Nest};
ghost use Rattle.dyck_balance.specs.Equal.{nest_eq, nest_fed};
ghost use Rattle.dyck_balance.specs.Decided.{nest_per, nest_equiv, nest_alike, nest_exact};

use std::alloc::Global;
use std::hash::{Hash, Hasher};
use std::marker::Model;
use text_base::{Exact, NoMemory};

/// What is left of tags when pairs are taken out.
#[derive(Debug, Drop)]
pub enum Shape {
    /// A wrong end tag was met, or bytes that are no markup.
    Torn,
    /// The elements of the unmatched end tags in order, and of the unmatched start tags, the
    /// innermost first.
    Tags {
        closers: Vec<u16>,
        openers: Vec<u16>,
    },
}

/// The sum of some tokens.
#[derive(Debug, Drop)]
pub struct NestingSum {
    pub(crate) shape: Shape,
}

impl Model for NestingSum {
    ghost use Rattle.tag_sums.specs.Nesting.{Nest};
    ghost use Rattle.dyck_balance.specs.View.{view_of};

    ghost Value = { Nest };

    ghost view = { λ a. view_of a.shape };
}

impl PartialEq for NestingSum {
    ghost eq = { nest_eq };

    ghost laws = { nest_per };

    fn eq(&self, other: &NestingSum) -> bool {
        match (&self.shape, &other.shape) {
            (Shape::Torn, Shape::Torn) => true,
            (
                Shape::Tags { closers, openers },
                Shape::Tags {
                    closers: other_closers,
                    openers: other_openers,
                },
            ) => {
                closers.as_slice() == other_closers.as_slice()
                    && openers.as_slice() == other_openers.as_slice()
            }
            _ => false,
        }
    }
}

impl Eq for NestingSum {
    ghost laws = { nest_equiv };
}

impl Hash for NestingSum {
    ghost hash_input = { nest_fed };

    ghost respects_eq = { nest_alike };

    fn hash<H: Hasher>(&self, state: &mut H) {
        match &self.shape {
            Shape::Torn => state.write_u8(0),
            Shape::Tags { closers, openers } => {
                state.write_u8(1);
                closers.hash(state);
                openers.hash(state);
            }
        }
    }
}

impl Exact for NestingSum {
    ghost exact = { nest_exact };
}
