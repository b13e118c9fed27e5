//! Comments, sections and instructions.

ghost use Rattle.std.specs.Prelude.{◌≡◌, [], if◌then◌else◌, ◌==◌};
ghost use Rattle.piece_steps.specs.Readers.{done, fail};
ghost use Rattle.page_model.specs.Places.{behind};
ghost use Rattle.page_steps.specs.PageSteps as steps;
ghost use Rattle.remark_stepping.specs.Views.{plain_move};

use crate::page_move::PageMove;
use byte_readers::Emit;
use open_pieces::{OpenPiece, PagePlace};
use text_base::PageToken;

/// In a comment, of which so many `-` are the last characters (XML 1.0, 2.5).
pub fn comment_move(dashes: u8, c: char) -> PageMove
    ensures { plain_move result ≡ steps.comment_move dashes c }
{
    if dashes >= 2 {
        return remark_end(c);
    }
    if c == '-' {
        PageMove::Go(OpenPiece::Comment(dashes + 1))
    } else {
        PageMove::Go(OpenPiece::Comment(0))
    }
}

/// In a section, of which so many `]` are the last characters, two standing for all above (XML 1.0,
/// 2.7).
pub fn section_move(brackets: u8, c: char) -> PageMove
    ensures { plain_move result ≡ steps.section_move brackets c }
{
    if c == '>' && brackets >= 2 {
        return PageMove::Done(PagePlace::Behind(0), Emit::One(PageToken::Text));
    }
    if c != ']' {
        return PageMove::Go(OpenPiece::Section(0));
    }
    if brackets >= 2 {
        PageMove::Go(OpenPiece::Section(2))
    } else {
        PageMove::Go(OpenPiece::Section(brackets + 1))
    }
}

/// In an instruction behind its target; whether its last character is `?` (XML 1.0, 2.6).
pub fn instruction_move(is_asked: bool, c: char) -> PageMove
    ensures { plain_move result ≡ steps.instruction_move is_asked c }
{
    if c == '>' && is_asked {
        PageMove::Done(PagePlace::Behind(0), Emit::One(PageToken::Misc))
    } else {
        PageMove::Go(OpenPiece::Instruction(c == '?'))
    }
}

/// Where only the `>` of a comment or of an instruction may follow.
pub fn remark_end(c: char) -> PageMove
    ensures { plain_move result ≡ steps.remark_end c }
{
    if c == '>' {
        PageMove::Done(PagePlace::Behind(0), Emit::One(PageToken::Misc))
    } else {
        PageMove::Fail
    }
}

/// Behind the last `?` of the XML declaration, which has no token (XML 1.0, 2.8).
pub fn declaration_end(c: char) -> PageMove
    ensures { plain_move result ≡ (if c == 62 then done (behind 0) [] else fail) }
{
    if c == '>' {
        PageMove::Done(PagePlace::Behind(0), Emit::Nothing)
    } else {
        PageMove::Fail
    }
}
