//! Document type declarations.

ghost use Rattle.std.specs.Prelude.{◌≡◌, ◌++◌, true, codes, IfOk};
ghost use Rattle.page_rules.specs.Views.{identifier_of, piece_of};
ghost use Rattle.piece_reasons.specs.Causes as causes;
ghost use Rattle.piece_reasons.specs.Doctypes as doctypes;
ghost use Rattle.piece_reasons.specs.Openers as openers;
ghost use Rattle.piece_reasons.specs.Sites.{HasCause};

use crate::reasons::{IdentifierForm, PieceReason};
use crate::site::Site;
use page_rules::{Identifier, Piece, is_right, piece_at, tokens_of};
use std::alloc::Global;
use text_base::NoMemory;

/// Why no lawful document type declaration begins, where `<!` and its word stand, in letters of
/// any case.
pub fn doctype(
    alloc: Global,
    site: &Site<'_, '_>,
    cs: &[char],
    rest: &[char],
) -> Result<PieceReason, NoMemory>
    requires is { cs.now ≡ codes "<!" ++ rest.now }
    requires word { openers.is_doctype_word rest.now ≡ true }
    ensures { IfOk result (HasCause site.now cs.now) }
{
    let Some((piece, _)) = piece_at(alloc, site.place, cs)? else {
        return Ok(PieceReason::DoctypeNotLawful);
    };
    if !is_right(site.place, &piece) {
        return Ok(PieceReason::DoctypeNotLawful);
    }
    if tokens_of(alloc, site.indexed, &piece)?.is_some() {
        return Ok(PieceReason::Other);
    }
    Ok(other(&piece))
}

// The document type of a declaration is another one.
fn other(piece: &Piece<'_>) -> PieceReason
    ensures { doctypes.IsOther (piece_of piece.now) result }
{
    match piece {
        Piece::Doctype(doctype) => PieceReason::OtherDoctype {
            identifier: form_of(doctype.identifier),
        },
        _ => PieceReason::Other,
    }
}

fn form_of(identifier: Identifier<'_>) -> IdentifierForm
    ensures { result ≡ causes.form_of (identifier_of identifier.entry) }
{
    match identifier {
        Identifier::None => IdentifierForm::Nothing,
        Identifier::System(_, _, _) => IdentifierForm::System,
        Identifier::Public(_, _, _, _, _) => IdentifierForm::Public,
    }
}
