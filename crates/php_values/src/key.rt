//! The keys of arrays.

ghost use Rattle.std.specs.Prelude.{◌≡◌, ◌∷◌, [], ◌↔◌, ℕ, ℤ, List, IfOk, IfErr, IsTrue, None, Some, nat_eq};
ghost use Rattle.std.proofs.Common.{rules};
ghost use Rattle.std.specs.Cmp.Rules.{comparing};
ghost use Rattle.std.specs.Cmp.Lexicographic.{pointwise, slice_cmp, slice_partial_cmp};
ghost use Rattle.std.specs.Ordering.{nat_cmp, as_partial_cmp};
ghost use Rattle.plain_values.specs.Keys.{canonical_integer};

use crate::text::Text;
use std::cmp::Ordering;
use std::marker::Model;
use text_base::NoMemory;

/// A text that is a key: never the decimal form of a 64-bit integer, which would be that integer
/// as a key.
#[derive(Debug, Drop)]
pub struct KeyText {
    text: Text,
}

impl Model for KeyText {
    ghost use Rattle.std.specs.Prelude.{◌≡◌, List, ℕ, None};
    ghost use Rattle.plain_values.specs.Keys.{canonical_integer};

    ghost Value = { List ℕ };

    ghost view = { λ t. t.text };

    ghost invariant = { λ t. canonical_integer t.text ≡ None };
}

impl PartialEq for KeyText {
    ghost eq = { pointwise nat_eq };

    ghost laws = { Prim.search (comparing, rules) };

    fn eq(&self, other: &KeyText) -> bool {
        self.text.as_slice() == other.text.as_slice()
    }
}

impl Eq for KeyText {
    ghost laws = { Prim.search (comparing, rules) };
}

impl PartialOrd for KeyText {
    ghost partial_cmp = { as_partial_cmp (slice_cmp nat_cmp) };

    ghost laws = { Prim.search (comparing, rules) };

    fn partial_cmp(&self, other: &KeyText) -> Option<Ordering> {
        Some(self.cmp(other))
    }
}

impl Ord for KeyText {
    ghost cmp = { slice_cmp nat_cmp };

    ghost total = { Prim.search (comparing, rules) };

    ghost matches_partial_cmp = { Prim.search (comparing, rules) };

    ghost matches_eq = { Prim.search (comparing, rules) };

    fn cmp(&self, other: &KeyText) -> Ordering {
        self.text.as_slice().cmp(&other.text.as_slice())
    }
}

/// A key of an array (PHP manual, "Arrays").
#[derive(Debug, PartialEq, Eq, PartialOrd, Ord, Drop)]
pub enum Key {
    /// An integer.
    Int(i64),
    /// A text that is no canonical decimal integer.
    Text(KeyText),
}

impl KeyText {
    /// A key of this text, which is the decimal form of no integer. The bytes are not copied.
    pub fn new(text: Text) -> KeyText
        requires { canonical_integer text ≡ None }
        ensures { result ≡ text }
    {
        KeyText { text }
    }

    /// The bytes of the text.
    pub fn as_slice(&self) -> &[u8]
        ensures value { result.now ≡ self.now }
        ensures no_integer { canonical_integer self.now ≡ None }
    {
        self.text.as_slice()
    }

    /// The text. Its bytes are not copied.
    pub fn text(&self) -> Result<Text, NoMemory>
        ensures { IfOk result (λ t. t ≡ self.now) }
    {
        self.text.share()
    }

    /// The same text once more. The bytes are not copied.
    pub fn share(&self) -> Result<KeyText, NoMemory>
        ensures { IfOk result (λ t. t ≡ self.now) }
    {
        let text = self.text.share()?;
        Ok(KeyText { text })
    }
}

impl Key {
    /// The same key once more. The bytes of a text are not copied.
    pub fn share(&self) -> Result<Key, NoMemory>
        ensures { IfOk result (λ k. k ≡ self.now) }
    {
        match self {
            Key::Int(number) => Ok(Key::Int(*number)),
            Key::Text(text) => {
                let text = text.share()?;
                Ok(Key::Text(text))
            }
        }
    }
}
