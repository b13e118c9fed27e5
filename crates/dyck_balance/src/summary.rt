//! The summary by nesting.

ghost use Rattle.std.specs.Prelude.{◌≡◌, ℕ, Bool, true, List, [], ◌∷◌, IfOk};
ghost use Rattle.tag_sums.specs.Nesting.{Nest, nest, nest_of, nest_token, join, is_torn, is_balanced, nest_count};
ghost use Rattle.dyck_balance.specs.Laws.{appends, torn_first, torn_second, not_balanced};
ghost use Rattle.dyck_balance.specs.Meeting.{list_of};

use crate::join::joined;
use crate::sum::{NestingSum, Shape};
use std::alloc::Global;
use tag_sums::Summary;
use text_base::{NoMemory, PageToken};

/// The summary by nesting: a list of tokens is whole where no tag in it is unmatched and no
/// `Bad` stands in it.
#[derive(Clone, Copy, Debug)]
pub struct Nesting;

impl Nesting {
    /// The summary by nesting.
    pub fn new() -> Nesting {
        Nesting
    }
}

fn tags_of(alloc: Global, closer: Option<u16>, opener: Option<u16>) -> Result<NestingSum, NoMemory>
    ensures { IfOk result (λ sum. sum ≡ nest (list_of closer) (list_of opener)) }
{
    let mut closers = Vec::new(alloc);
    if let Some(element) = closer {
        closers.push(element)?;
    }
    let mut openers = Vec::new(alloc);
    if let Some(element) = opener {
        openers.push(element)?;
    }
    Ok(NestingSum {
        shape: Shape::Tags { closers, openers },
    })
}

fn sum_of_token(alloc: Global, token: PageToken) -> Result<NestingSum, NoMemory>
    ensures { IfOk result (λ sum. sum ≡ nest_token token) }
{
    match token {
        PageToken::Start(element) => tags_of(alloc, None, Some(element.0)),
        PageToken::End(element) => tags_of(alloc, Some(element.0), None),
        PageToken::Bad => Ok(NestingSum { shape: Shape::Torn }),
        _ => tags_of(alloc, None, None),
    }
}

impl Summary for Nesting {
    type Sum = NestingSum;

    ghost sum_of = { λ s tokens. nest_of tokens };

    ghost composed = { λ s a b. join a b };

    ghost is_broken = { λ s a. is_torn a };

    ghost is_whole = { λ s a. is_balanced a };

    ghost tag_count = { λ s a. nest_count a };

    ghost appended = { λ s u v. appends u v };

    ghost stays_broken = { λ s a b h. torn_first a b h };

    ghost breaks = { λ s a b h. torn_second a b h };

    ghost not_whole = { λ s a h. not_balanced a h };

    fn unit(&self, alloc: Global) -> Result<NestingSum, NoMemory> {
        let sum = tags_of(alloc, None, None)?;
        Ok(sum)
    }

    fn of_token(&self, alloc: Global, token: PageToken) -> Result<NestingSum, NoMemory> {
        let sum = sum_of_token(alloc, token)?;
        Ok(sum)
    }

    fn compose(
        &self,
        alloc: Global,
        a: &NestingSum,
        b: &NestingSum,
    ) -> Result<NestingSum, NoMemory> {
        let sum = joined(alloc, a, b)?;
        Ok(sum)
    }

    fn copy(&self, alloc: Global, a: &NestingSum) -> Result<NestingSum, NoMemory> {
        match &a.shape {
            Shape::Torn => Ok(NestingSum { shape: Shape::Torn }),
            Shape::Tags { closers, openers } => Ok(NestingSum {
                shape: Shape::Tags {
                    closers: closers.as_slice().to_vec(alloc)?,
                    openers: openers.as_slice().to_vec(alloc)?,
                },
            }),
        }
    }

    fn broken(&self, a: &NestingSum) -> bool {
        matches!(&a.shape, Shape::Torn)
    }

    fn whole(&self, a: &NestingSum) -> bool {
        match &a.shape {
            Shape::Torn => false,
            Shape::Tags { closers, openers } => closers.is_empty() && openers.is_empty(),
        }
    }

    fn tags(&self, a: &NestingSum) -> u64 {
        match &a.shape {
            Shape::Torn => 0,
            Shape::Tags { closers, openers } => closers.len() as u64 + openers.len() as u64,
        }
    }
}
