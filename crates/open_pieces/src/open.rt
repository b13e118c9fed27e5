//! The piece that is open.

ghost use Rattle.std.specs.Prelude.{◌≡◌, IfOk};
ghost use Rattle.open_pieces.specs.OpenExactness.{exact_piece};

use crate::attribute::OpenAttribute;
use crate::characters::Characters;
use crate::doctype::OpenDoctype;
use crate::name_list::NameList;
use crate::value::OpenReference;
use std::alloc::Global;
use text_base::{Exact, NoMemory};

/// The piece of a page that is open, by what is reached of its form.
#[derive(Debug, PartialEq, Eq, Hash, Drop)]
pub enum OpenPiece {
    /// None.
    Nothing,
    /// `&`, and so much of a reference.
    Reference(OpenReference),
    /// So much of `<!--`, `<![CDATA[` or `<!DOCTYPE`, at least `<`.
    Opener(Characters),
    /// `<`, and so much of a name, at least one character.
    TagName(Characters),
    /// In a tag of this element, with attributes of these names.
    Tag(Characters, NameList, OpenAttribute),
    /// And behind the `/` of an empty tag.
    EmptyEnd(Characters, NameList),
    /// `</`, so much of a name, and maybe white space (true).
    EndTag(Characters, bool),
    /// A comment, of which so many `-` are the last characters, two standing for all above.
    Comment(u8),
    /// A section, of which so many `]` are the last characters, two standing for all above.
    Section(u8),
    /// `<?`, and a target so far that may still become `xml`.
    Target(Characters),
    /// `<?`, and another target so far.
    OtherTarget,
    /// `?` directly behind a target.
    BehindTarget,
    /// In an instruction behind its target; whether its last character is `?`.
    Instruction(bool),
    /// In the XML declaration, with attributes of these names.
    Declaration(NameList, OpenAttribute),
    /// Behind the last `?` of the XML declaration.
    DeclarationEnd,
    /// In a document type declaration.
    Doctype(OpenDoctype),
}

impl Exact for OpenPiece {
    ghost exact = { exact_piece };
}

impl OpenPiece {
    /// The same once more.
    pub fn copy(&self, alloc: Global) -> Result<OpenPiece, NoMemory>
        ensures { IfOk result (λ o. o ≡ self.now) }
    {
        match self {
            OpenPiece::Nothing => Ok(OpenPiece::Nothing),
            OpenPiece::Reference(reference) => Ok(OpenPiece::Reference(reference.copy(alloc)?)),
            OpenPiece::Opener(begun) => Ok(OpenPiece::Opener(begun.copy(alloc)?)),
            OpenPiece::TagName(name) => Ok(OpenPiece::TagName(name.copy(alloc)?)),
            OpenPiece::Tag(name, names, attribute) => {
                let name = name.copy(alloc)?;
                let names = names.copy(alloc)?;
                Ok(OpenPiece::Tag(name, names, attribute.copy(alloc)?))
            }
            OpenPiece::EmptyEnd(name, names) => {
                let name = name.copy(alloc)?;
                Ok(OpenPiece::EmptyEnd(name, names.copy(alloc)?))
            }
            OpenPiece::EndTag(name, is_spaced) => Ok(OpenPiece::EndTag(
                name.copy(alloc)?,
                *is_spaced,
            )),
            OpenPiece::Comment(dashes) => Ok(OpenPiece::Comment(*dashes)),
            OpenPiece::Section(brackets) => Ok(OpenPiece::Section(*brackets)),
            OpenPiece::Target(target) => Ok(OpenPiece::Target(target.copy(alloc)?)),
            OpenPiece::OtherTarget => Ok(OpenPiece::OtherTarget),
            OpenPiece::BehindTarget => Ok(OpenPiece::BehindTarget),
            OpenPiece::Instruction(is_asked) => Ok(OpenPiece::Instruction(*is_asked)),
            OpenPiece::Declaration(names, attribute) => {
                let names = names.copy(alloc)?;
                Ok(OpenPiece::Declaration(names, attribute.copy(alloc)?))
            }
            OpenPiece::DeclarationEnd => Ok(OpenPiece::DeclarationEnd),
            OpenPiece::Doctype(doctype) => Ok(OpenPiece::Doctype(doctype.copy(alloc)?)),
        }
    }
}
