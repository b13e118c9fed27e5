//! Comments, CDATA sections and instructions.

ghost use Rattle.std.specs.Prelude.{◌≡◌};
ghost use Rattle.page_model.specs.Reading as spec;
ghost use Rattle.page_rules.specs.Views.{seen_piece};

use crate::parts::Piece;
use crate::scan::{strip, until};

/// The comment behind `<!--`.
#[tactic(auto, unfolding(page_model::specs::Reading::comment_at))]
pub fn comment(cs: &[char]) -> Option<(Piece<'_>, &[char])>
    ensures { seen_piece result ≡ spec.comment_at cs.now }
{
    let (text, end) = until(cs, b"--")?;
    let rest = strip(end, b">")?;
    Some((Piece::Comment(text), rest))
}

/// The CDATA section behind `<![CDATA[`.
#[tactic(auto, unfolding(page_model::specs::Reading::section_at))]
pub fn section(cs: &[char]) -> Option<(Piece<'_>, &[char])>
    ensures { seen_piece result ≡ spec.section_at cs.now }
{
    let (text, rest) = until(cs, b"]]>")?;
    Some((Piece::Section(text), rest))
}

/// The instruction behind `<?` and its target.
#[tactic(auto, unfolding(page_model::specs::Reading::instruction_at))]
pub fn instruction<'c>(target: &'c [char], cs: &'c [char]) -> Option<(Piece<'c>, &'c [char])>
    ensures { seen_piece result ≡ spec.instruction_at target.now cs.now }
{
    let (text, rest) = until(cs, b"?>")?;
    Some((Piece::Instruction(target, text), rest))
}
