//! The parts of a pattern file.

use byte_forms::ByteClass;

/// How often something stands.
#[derive(Clone, Copy, PartialEq, Eq)]
pub(crate) enum Repeat {
    Once,
    Any,
    AtLeastOnce,
    AtMostOnce,
}

/// A part: a byte of a class, or a bracket that closes, with how often it stands; a bracket that
/// opens; a bar.
#[derive(Drop)]
pub(crate) enum Part {
    Byte(ByteClass, Repeat),
    Open,
    Close(Repeat),
    Bar,
}
