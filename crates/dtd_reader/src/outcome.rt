//! What becomes of one step of the reading.

use dtd_entities::FileName;
use io_edge::FileFault;
use text_base::Bytes;

/// What becomes of one step of the reading.
#[derive(Debug, Drop)]
pub enum Outcome {
    /// It goes on.
    Goes,
    /// The whole text is read.
    Ends,
    /// None of what may stands there.
    Breaks,
    /// Something stands there that this project leaves out.
    Omits,
    /// A reference to an entity of this name, which is open or not declared.
    Misses(Bytes),
    /// A reference to an entity whose text is the file that is found under this name, which was not
    /// read.
    Unread(Bytes, FileFault),
    /// A reference to an entity whose text is the file that is found under this name, outside of the
    /// root.
    LeadsOut(Bytes),
}

/// The text of an entity, where it is declared and not open.
#[derive(Debug, Drop)]
pub enum Found {
    /// It is open or not declared.
    Nowhere,
    /// It is the file that is found under this name, which was not read.
    NotRead(Bytes, FileFault),
    /// It is the file that is found under this name, outside of the root.
    Outside(Bytes),
    Text(Inner),
}

/// The text of an entity.
#[derive(Debug, Drop)]
pub struct Inner {
    pub text: Bytes,
    /// How many bytes of its file are passed over before it.
    pub over: u64,
    /// The file in which it stands, as it is meant in the file of the definition.
    pub file: FileName,
}

/// The text of a file.
#[derive(Debug, Drop)]
pub enum Loaded {
    /// The file of this name was not read.
    NotRead(Bytes, FileFault),
    /// The text, and how many bytes stand before it.
    Text(Bytes, u64),
}
