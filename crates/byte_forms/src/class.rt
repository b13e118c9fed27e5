//! Classes of bytes.

ghost use Rattle.std.specs.Prelude.{◌≡◌};
ghost use Rattle.byte_forms.specs.Classes.{in_class};

use text_base::ByteSet;

/// The bytes of a set, or all others.
#[derive(Drop)]
pub struct ByteClass {
    pub others: bool,
    pub set: ByteSet,
}

impl ByteClass {
    /// Whether a byte is one of the class.
    pub fn has(&self, byte: u8) -> bool
        ensures { result ≡ in_class self.now byte }
    {
        if self.others {
            !self.set.has(byte)
        } else {
            self.set.has(byte)
        }
    }
}
