//! The summary by segments.

ghost use Rattle.std.specs.Prelude.{◌≡◌, ℕ, Bool, true, List, Option, Some, [], ◌∷◌, IfOk, map};
ghost use Rattle.tag_sums.specs.Automaton.{Automaton, IsAutomaton};
ghost use Rattle.tag_sums.specs.Labels.{Label, other};
ghost use Rattle.tag_sums.specs.Sum.{Sum, unit, of_token, sum_of, compose, with_label, closing, opening, tag_count, is_broken};
ghost use Rattle.segment_summary.specs.Parts.{automaton_of, is_lawful};
ghost use Rattle.page_automata.specs.PageAutomaton.{page_init};
ghost use Rattle.segment_summary.specs.View.{mark_of};
ghost use Rattle.page_automata.specs.Whole.{is_whole};
ghost use Rattle.segment_summary.specs.Laws.{appends, broken_first, broken_second, broken_not_whole};

use crate::meet::{composition, has_move, has_state, target};
use crate::rows::{child_row, closing_states, mark_row, stay};
use crate::rules::Mark;
use crate::segments::Segments;
use crate::sum::{SegmentSum, Shape};
use std::alloc::Global;
use tag_sums::Summary;
use text_base::{Elem, NoMemory, PageToken};

fn sum_of_start(alloc: Global, segments: &Segments, element: Elem) -> Result<SegmentSum, NoMemory>
    ensures { IfOk result
        (λ s. s ≡ opening (automaton_of segments.now) ((automaton_of segments.now).init element.0)) }
{
    let state = match segments.init(element) {
        Some(state) => state,
        None => {
            return Ok(SegmentSum {
                shape: Shape::Broken,
            });
        }
    };
    let mut openers = Vec::new(alloc);
    openers.push(state)?;
    Ok(SegmentSum {
        shape: Shape::Live {
            closers: Vec::new(alloc),
            middle: stay(alloc, segments.count())?,
            openers,
        },
    })
}

fn sum_of_end(alloc: Global, segments: &Segments, element: Elem) -> Result<SegmentSum, NoMemory>
    ensures { IfOk result (λ s. s ≡ closing (automaton_of segments.now) element.0) }
{
    let states = closing_states(alloc, segments, element)?;
    let middle = child_row(alloc, segments, element)?;
    if !has_state(&states) {
        return Ok(SegmentSum {
            shape: Shape::Broken,
        });
    }
    if !has_move(middle.as_slice()) {
        return Ok(SegmentSum {
            shape: Shape::Broken,
        });
    }
    let mut closers = Vec::new(alloc);
    closers.push(states)?;
    Ok(SegmentSum {
        shape: Shape::Live {
            closers,
            middle,
            openers: Vec::new(alloc),
        },
    })
}

fn sum_of_mark(alloc: Global, segments: &Segments, mark: Mark) -> Result<SegmentSum, NoMemory>
    ensures { IfOk result (λ s. s ≡ with_label (automaton_of segments.now) (other (mark_of mark))) }
{
    let middle = mark_row(alloc, segments, mark)?;
    if !has_move(middle.as_slice()) {
        return Ok(SegmentSum {
            shape: Shape::Broken,
        });
    }
    Ok(SegmentSum {
        shape: Shape::Live {
            closers: Vec::new(alloc),
            middle,
            openers: Vec::new(alloc),
        },
    })
}

fn sum_of_token(
    alloc: Global,
    segments: &Segments,
    token: PageToken,
) -> Result<SegmentSum, NoMemory>
    ensures { IfOk result (λ s. s ≡ of_token (automaton_of segments.now) token) }
{
    match token {
        PageToken::Doctype => sum_of_mark(alloc, segments, Mark::Doctype),
        PageToken::Start(element) => sum_of_start(alloc, segments, element),
        PageToken::End(element) => sum_of_end(alloc, segments, element),
        PageToken::Blank => sum_of_mark(alloc, segments, Mark::Blank),
        PageToken::Text => sum_of_mark(alloc, segments, Mark::Text),
        PageToken::Misc => sum_of_mark(alloc, segments, Mark::Misc),
        PageToken::Bad => Ok(SegmentSum {
            shape: Shape::Broken,
        }),
    }
}

impl Summary for Segments {
    type Sum = SegmentSum;

    ghost sum_of = { λ s tokens. sum_of (automaton_of s) tokens };

    ghost composed = { λ s a b. compose a b };

    ghost is_broken = { λ s a. is_broken a };

    ghost is_whole = { λ s a. is_whole (automaton_of s) a };

    ghost tag_count = { λ s a. tag_count a };

    ghost appended = { λ s u v. appends (automaton_of s) (is_lawful s) u v };

    ghost stays_broken = { λ s a b h. broken_first a b h };

    ghost breaks = { λ s a b h. broken_second a b h };

    ghost not_whole = { λ s a h. broken_not_whole (automaton_of s) a h };

    fn unit(&self, alloc: Global) -> Result<SegmentSum, NoMemory> {
        Ok(SegmentSum {
            shape: Shape::Live {
                closers: Vec::new(alloc),
                middle: stay(alloc, self.count())?,
                openers: Vec::new(alloc),
            },
        })
    }

    fn of_token(&self, alloc: Global, token: PageToken) -> Result<SegmentSum, NoMemory> {
        let sum = sum_of_token(alloc, self, token)?;
        Ok(sum)
    }

    fn compose(
        &self,
        alloc: Global,
        a: &SegmentSum,
        b: &SegmentSum,
    ) -> Result<SegmentSum, NoMemory> {
        composition(alloc, a, b)
    }

    fn copy(&self, alloc: Global, a: &SegmentSum) -> Result<SegmentSum, NoMemory> {
        let sum = a.copy(alloc)?;
        Ok(sum)
    }

    fn broken(&self, a: &SegmentSum) -> bool {
        matches!(&a.shape, Shape::Broken)
    }

    fn whole(&self, a: &SegmentSum) -> bool {
        match &a.shape {
            Shape::Live {
                closers,
                middle,
                openers,
            } => {
                closers.is_empty()
                    && openers.is_empty()
                    && target(middle.as_slice(), self.page_start()) == Some(self.page_done())
            }
            Shape::Broken => false,
        }
    }

    fn tags(&self, a: &SegmentSum) -> u64 {
        match &a.shape {
            Shape::Broken => 0,
            Shape::Live {
                closers,
                openers,
                ..
            } => closers.len() as u64 + openers.len() as u64,
        }
    }
}
