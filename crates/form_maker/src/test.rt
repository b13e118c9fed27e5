//! Tests of bytes.

ghost use Rattle.std.specs.Prelude.{◌≡◌, ℕ, Bool};

/// A test of bytes.
pub trait ByteTest {
    /// Which bytes pass.
    ghost passing: { Self → ℕ → Bool };

    /// Whether a byte passes.
    fn passes(&self, byte: u8) -> bool
        ensures { result ≡ passing self.now byte };
}
