//! The document types that words may name: this module alone knows their definitions.

ghost use Rattle.std.specs.Prelude.{◌≡◌, IfOk, IfErr, option_map};
ghost use Rattle.io_edge.specs.Told.{Stays};
ghost use Rattle.dtd_model.specs.TableOf.{table_of};
ghost use Rattle.dtd_reader.specs.Source.{source_call, IsCalm};
ghost use Rattle.document_types.specs.DocumentTypes.{HasTable, IsBuiltIn, IsDefinitionRefusal, named_type, type_of};

use crate::refusal::DefinitionRefusal;
use crate::strict;
use dtd_model::{Dtd, mini};
use dtd_reader::read_dtd;
use io_edge::{Files, normal_name, root_for};
use std::alloc::Global;

/// A document type that a word names.
#[derive(Clone, Copy, Debug)]
pub enum DocumentType<'a> {
    /// `strict`: XHTML 1.0 Strict, where no word names another.
    Strict,
    /// `mini`: `html` holds one `body`, `body` any number of `p`, and `p` text.
    Mini,
    /// The one that the file of this name defines, with the folder that is given for its root, if one
    /// is.
    File(&'a str, Option<&'a str>),
}

impl<'a> DocumentType<'a> {
    /// The document type that the word names; a definition in a file has the root that is given, or
    /// else the folder of the call where the file lies below it, or else the folder of the file.
    pub fn named(root: Option<&'a str>, word: &'a str) -> DocumentType<'a>
        ensures { type_of result
            ≡ named_type (option_map (λ folder. folder.now) root.entry) word.entry.now }
    {
        if word == "strict" {
            DocumentType::Strict
        } else if word == "mini" {
            DocumentType::Mini
        } else {
            DocumentType::File(word, root)
        }
    }

    /// Its definition. The file of a definition may stand anywhere, and is asked for by its name in
    /// its normal form; what it asks for is refused where it lies outside of the root. Built-in
    /// definitions ask for nothing.
    ///
    /// # Errors
    ///
    /// `File` where the files of a definition spell none, with the cause that `read_dtd` gives;
    /// `BuiltIn` where the built-in text is refused; and `Memory`.
    pub fn definition<F: Files>(
        self,
        alloc: Global,
        files: &mut F,
    ) -> Result<Dtd, DefinitionRefusal>
        ensures ok { IfOk result
            (λ dtd. HasTable (F.content files.new) (type_of self.entry) (table_of dtd)) }
        ensures err { IfErr result
            (IsDefinitionRefusal (source_call (F.content files.new) (F.faults files.old)
            (F.faults files.new) (F.misses files.old) (F.misses files.new))
            (type_of self.entry)) }
        ensures reads { IsBuiltIn (type_of self.entry) → F.reads files.new ≡ F.reads files.old }
        ensures calm { IfOk result
            (λ _. IsCalm (source_call (F.content files.new) (F.faults files.old)
            (F.faults files.new)
            (F.misses files.old) (F.misses files.new))) }
        ensures stays { Stays (F.content files.old) (F.content files.new) }
    {
        match self {
            DocumentType::Strict => match strict(alloc) {
                Ok(dtd) => Ok(dtd),
                Err(refusal) => Err(DefinitionRefusal::BuiltIn(refusal)),
            },
            DocumentType::Mini => {
                let dtd = mini(alloc)?;
                Ok(dtd)
            }
            DocumentType::File(name, folder) => {
                let name = normal_name(alloc, name)?;
                let root = root_for(alloc, folder, name.as_str())?;
                match read_dtd(alloc, files, root.as_str(), name.as_str()) {
                    Ok(dtd) => Ok(dtd),
                    Err(refusal) => Err(DefinitionRefusal::File(refusal)),
                }
            }
        }
    }
}
