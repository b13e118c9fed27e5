//! Texts that share their bytes.

ghost use Rattle.std.specs.Prelude.{◌≡◌, ◌⊎◌, ◌++◌, ℕ, ◌≤◌, List, length, IfOk, IfErr, OnOk, OnErr, Ok, Err, nat_eq};
ghost use Rattle.std.proofs.Common.{rules};
ghost use Rattle.std.specs.Cmp.Rules.{comparing};
ghost use Rattle.std.specs.Cmp.Lexicographic.{pointwise, slice_cmp, slice_partial_cmp};
ghost use Rattle.std.specs.Ordering.{nat_cmp, as_partial_cmp};
ghost use Rattle.text_base.specs.declared.limits.TheConstants.{TEXT_LIMIT};
ghost use Rattle.plain_values.specs.Plain.{Plain};
ghost use Rattle.plain_values.specs.Members.{within_length};

use plain_values::Fault;
use std::alloc::Global;
use std::cmp::Ordering;
use std::marker::Model;
use std::rc::Rc;
use text_base::NoMemory;
use text_base::limits::TEXT_LIMIT;

/// A text of at most 16,777,216 bytes. Contracts see it as the list of its bytes, and nothing of
/// how many texts hold the same bytes in memory.
#[derive(Debug, Drop)]
pub struct Text {
    bytes: Rc<Vec<u8>>,
}

impl Model for Text {
    ghost use Rattle.std.specs.Prelude.{ℕ, ◌≤◌, List, length};
    ghost use Rattle.text_base.specs.declared.limits.TheConstants.{TEXT_LIMIT};

    ghost Value = { List ℕ };

    ghost view = { λ t. t.bytes.value.items };

    ghost invariant = { λ t. length t.bytes.value.items ≤ TEXT_LIMIT };
}

impl PartialEq for Text {
    ghost eq = { pointwise nat_eq };

    ghost laws = { Prim.search (comparing, rules) };

    fn eq(&self, other: &Text) -> bool {
        self.as_slice() == other.as_slice()
    }
}

impl Eq for Text {
    ghost laws = { Prim.search (comparing, rules) };
}

impl PartialOrd for Text {
    ghost partial_cmp = { as_partial_cmp (slice_cmp nat_cmp) };

    ghost laws = { Prim.search (comparing, rules) };

    fn partial_cmp(&self, other: &Text) -> Option<Ordering> {
        Some(self.cmp(other))
    }
}

impl Ord for Text {
    ghost cmp = { slice_cmp nat_cmp };

    ghost total = { Prim.search (comparing, rules) };

    ghost matches_partial_cmp = { Prim.search (comparing, rules) };

    ghost matches_eq = { Prim.search (comparing, rules) };

    fn cmp(&self, other: &Text) -> Ordering {
        self.as_slice().cmp(&other.as_slice())
    }
}

impl Text {
    /// A text of these bytes. Faults Long exactly where there are more than 16,777,216.
    pub fn new(alloc: Global, bytes: &[u8]) -> Result<Text, Fault>
        ensures ok { IfOk result (λ t. within_length bytes.now ≡ Ok (Plain.text t)) }
        ensures err { IfErr result
            (λ fault. (fault ≡ Fault.Memory) ⊎ (within_length bytes.now ≡ Err fault)) }
    {
        if bytes.len() > TEXT_LIMIT {
            return Err(Fault::Long);
        }
        let own = Vec::from_slice(alloc, bytes)?;
        let bytes = Rc::new(alloc, own)?;
        Ok(Text { bytes })
    }

    /// A text of these bytes, which are no more than 16,777,216.
    pub fn from_short(alloc: Global, bytes: &[u8]) -> Result<Text, NoMemory>
        requires { length bytes.now ≤ TEXT_LIMIT }
        ensures { IfOk result (λ t. t ≡ bytes.now) }
    {
        let own = Vec::from_slice(alloc, bytes)?;
        let bytes = Rc::new(alloc, own)?;
        Ok(Text { bytes })
    }

    /// A text of the bytes of a vector, which are not copied. Faults Long exactly where there are
    /// more than 16,777,216.
    pub fn from_vec(alloc: Global, bytes: Vec<u8>) -> Result<Text, Fault>
        ensures ok { IfOk result (λ t. within_length bytes.items ≡ Ok (Plain.text t)) }
        ensures err { IfErr result
            (λ fault. (fault ≡ Fault.Memory) ⊎ (within_length bytes.items ≡ Err fault)) }
    {
        if bytes.len() > TEXT_LIMIT {
            return Err(Fault::Long);
        }
        let bytes = Rc::new(alloc, bytes)?;
        Ok(Text { bytes })
    }

    /// The bytes.
    pub fn as_slice(&self) -> &[u8]
        ensures bytes { result.now ≡ self.now }
        ensures short { length self.now ≤ TEXT_LIMIT }
    {
        self.bytes.as_slice()
    }

    /// The same text once more. The bytes are not copied.
    pub fn share(&self) -> Result<Text, NoMemory>
        ensures { IfOk result (λ t. t ≡ self.now) }
    {
        let bytes = self.bytes.clone()?;
        Ok(Text { bytes })
    }

    /// Puts bytes at the end: in place where no other text holds the bytes. Faults Long exactly
    /// where the text would be longer than 16,777,216 bytes; after a fault nothing has changed.
    pub fn append(&mut self, more: &[u8]) -> Result<(), Fault>
        ensures ok { OnOk result (within_length (self.old ++ more.now) ≡ Ok (Plain.text self.new)) }
        ensures err { IfErr result
            (λ fault. (fault ≡ Fault.Memory) ⊎ (within_length (self.old ++ more.now) ≡ Err fault)) }
        ensures unchanged { OnErr result (self.new ≡ self.old) }
    {
        if more.len() > TEXT_LIMIT - self.as_slice().len() {
            return Err(Fault::Long);
        }
        let own = Rc::make_mut(&mut self.bytes)?;
        own.extend_from_slice(more)?;
        Ok(())
    }
}
