//! Pattern files are read.

ghost use Rattle.std.specs.Prelude.{◌≡◌, [], IfOk, IfErr};
ghost use Rattle.page_policy.specs.Patterns.{Pattern as Plain};
ghost use Rattle.page_policy.specs.Grammar.{Alt, body_of};
ghost use Rattle.page_policy.specs.Refusals.{IsTaken, IsCause};
ghost use Rattle.page_policy.specs.Forms.{IsForm};

use crate::building::build;
use crate::cutting::cut;
use crate::pattern::Pattern;
use crate::refusal::{POLICY_LIMIT, PolicyRefusal};
use crate::scan::deep_place;
use std::alloc::Global;
use text_base::NoMemory;

/// A file without one line feed at its end.
fn without_feed(file: &[u8]) -> &[u8]
    ensures { result.now ≡ body_of file.now }
{
    match file {
        [] => file,
        [before @ .., last] => { if *last == b'\n' { before } else { file } }
    }
}

/// The pattern that these bytes spell, or the place of what cannot stand there.
fn pattern_of(alloc: Global, body: &[u8]) -> Result<Result<Pattern, usize>, NoMemory>
    ensures { IfOk result (λ r. (IfOk r (λ m. (p : Plain) × Alt p body.now [] × IsForm m.arena m.root p))
        × (IfErr r (λ at. (p : Plain) → Alt p body.now [] → ⊥))) }
{
    let parts = cut(alloc, body)?;
    if !parts.is_whole {
        return Ok(Err(parts.place));
    }
    match build(alloc, &parts.items)? {
        Some(pattern) => Ok(Ok(pattern)),
        None => Ok(Err(parts.place)),
    }
}

/// The pattern that a file spells, as an expression: the only one. One line feed at its end is no
/// part of it. Its time grows with the length of the file, and no bracket takes room on the stack.
///
/// # Errors
///
/// `TooLong` where the file has over `POLICY_LIMIT` bytes; else `TooDeep` where over `OPEN_LIMIT`
/// brackets are open at once, with the place of the first that is one too many; else `NotPattern`
/// where no pattern is spelled, with the place of what cannot stand there; and `Memory`.
pub fn read_policy(alloc: Global, file: &[u8]) -> Result<Pattern, PolicyRefusal>
    ensures ok { IfOk result (λ r. (p : Plain) × IsTaken file.now p × IsForm r.arena r.root p) }
    ensures err { IfErr result (IsCause file.now) }
{
    if file.len() > POLICY_LIMIT {
        return Err(PolicyRefusal::TooLong { len: file.len() });
    }
    if let Some(at) = deep_place(file) {
        return Err(PolicyRefusal::TooDeep { at });
    }
    match pattern_of(alloc, without_feed(file))? {
        Ok(pattern) => Ok(pattern),
        Err(at) => Err(PolicyRefusal::NotPattern { at }),
    }
}
