//! A pattern file is cut into its parts.

ghost use Rattle.std.specs.Prelude.{◌≡◌, List, IfOk};
ghost use Rattle.page_policy.specs.Machine.{PlainPart, Cut};
ghost use Rattle.page_policy.specs.Cuts.{IsCut};

use crate::part::Part;
use crate::parts::part_at;
use std::alloc::Global;
use text_base::NoMemory;

/// The brackets that are open, and the place of the first that closes none.
#[derive(Drop)]
struct Balance {
    depth: usize,
    stray: Option<usize>,
}

impl Balance {
    /// Goes over the part at a place.
    fn note(&mut self, part: &Part, at: usize) {
        match part {
            Part::Open => self.depth = self.depth.saturating_add(1),
            Part::Close(_) => {
                if self.depth == 0 && self.stray.is_none() {
                    self.stray = Some(at);
                }
                self.depth = self.depth.saturating_sub(1);
            }
            _ => {}
        }
    }
}

/// The parts of a file, as far as it can be cut, and the place of what cannot stand there, if it
/// is no pattern.
#[derive(Drop)]
pub(crate) struct Parts {
    pub(crate) items: Vec<Part>,
    pub(crate) is_whole: bool,
    pub(crate) place: usize,
}

/// Cuts a file into its parts.
pub(crate) fn cut(alloc: Global, file: &[u8]) -> Result<Parts, NoMemory>
    ensures { IfOk result (λ parts. IsCut parts file.now) }
{
    let mut items = Vec::new(alloc);
    let mut balance = Balance {
        depth: 0,
        stray: None,
    };
    let mut rest = file;
    while let Some((part, others)) = part_at(rest) {
        balance.note(&part, file.len() - rest.len());
        items.push(part)?;
        rest = others;
    }
    Ok(Parts {
        items,
        is_whole: rest.is_empty(),
        place: balance.stray.unwrap_or(file.len() - rest.len()),
    })
}
