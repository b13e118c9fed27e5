//! Values, and arrays of them.

ghost use Rattle.std.specs.Prelude.{◌≡◌, ◌⊎◌, ℕ, ◌<◌, ◌≤◌, length, true, IfOk, IfErr, OnOk, OnErr, IfSome, IfNone, MatchResult, is_none, Ok, Err};
ghost use Rattle.text_base.specs.declared.limits.TheConstants.{DEPTH_LIMIT};
ghost use Rattle.plain_values.specs.Plain.{Plain, Pairs, keys, empty, depth, deepest};
ghost use Rattle.plain_values.specs.Keys.{is_absent, are_distinct};
ghost use Rattle.plain_values.specs.Members.{member, put_pair, within_depth, push_at, key_after, largest_key};
ghost use Rattle.php_values.specs.View.{plain_of, plain_key, pairs_of};

use crate::key::Key;
use crate::text::Text;
use plain_values::Fault;
use std::alloc::Global;
use std::collections::BTreeMap;
use std::marker::Model;
use std::rc::Rc;
use text_base::NoMemory;
use text_base::limits::DEPTH_LIMIT;

/// A value of a script (PHP manual, "Types").
#[cycle(value)]
#[derive(Debug)]
pub enum Value {
    /// Null.
    Null,
    /// A boolean.
    Flag(bool),
    /// An integer.
    Int(i64),
    /// A text, of bytes.
    Text(Text),
    /// An array.
    Array(Array),
}

// Written out, so that a value that is let go is one call to the proofs above, and not a case for
// each variant.
impl Drop for Value {
    #[cycle(value)]
    fn drop(self) {
        match self {
            Value::Null => {}
            Value::Flag(_) => {}
            Value::Int(_) => {}
            Value::Text(_) => {}
            Value::Array(_) => {}
        }
    }
}

/// An array (PHP manual, "Arrays"). Contracts see it as the list of its pairs, in the order in
/// which their keys came, and nothing of how many arrays hold the same members in memory. No two
/// keys are the same, and no array is nested deeper than 1,000.
#[cycle(value)]
#[derive(Debug, Drop)]
pub struct Array {
    pub(crate) members: Rc<Members>,
}

impl Model for Array {
    ghost use Rattle.std.specs.Prelude.{suc};
    ghost use Rattle.plain_values.specs.Plain.{Pairs, weight};
    ghost use Rattle.php_values.specs.PlainCode.{pairs_code};

    ghost Value = { Pairs };

    ghost coded = { pairs_code };

    ghost view = { λ a. a.members.value };

    ghost size = { λ ps. suc (weight ps) };

    ghost use Rattle.std.proofs.Common.{arith};

    ghost size_decreases = { λ a h. Prim.omega arith };
}

/// How deep the deepest member of an array is, and how many members are as deep.
#[derive(Clone, Copy, Debug)]
pub(crate) struct Deepest {
    pub(crate) depth: u64,
    pub(crate) count: u64,
}

/// The members of an array, which any number of arrays hold. The depth is kept and never counted
/// through the members' members: where members are shared, that walk can be as long as two to the
/// power of the depth. It is counted anew only where the last of the deepest members is made less
/// deep.
#[cycle(value)]
#[derive(Debug, Drop)]
pub(crate) struct Members {
    pub(crate) pairs: Vec<(Key, Value)>,
    pub(crate) places: BTreeMap<Key, u64>,
    pub(crate) largest: Option<i64>,
    pub(crate) deepest: Deepest,
}

impl Model for Members {
    ghost use Rattle.plain_values.specs.Plain.{Pairs, weight};
    ghost use Rattle.php_values.specs.PlainCode.{pairs_code};

    ghost Value = { Pairs };

    ghost coded = { pairs_code };

    ghost use Rattle.php_values.specs.View.{pairs_of};
    ghost use Rattle.php_values.specs.Index.{IsIndexed};

    ghost view = { λ m. pairs_of m.pairs.items };

    ghost invariant = { λ m. IsIndexed m.pairs.items m.places m.largest m.deepest.depth m.deepest.count };

    ghost size = { weight };

    ghost use Rattle.php_values.specs.Falls.{deep_pairs_le};

    ghost size_decreases = { λ m h. deep_pairs_le m.pairs.items };
}

impl Value {
    /// The same value once more. Nothing that it holds is copied.
    pub fn share(&self) -> Result<Value, NoMemory>
        ensures { IfOk result (λ v. v ≡ self.now) }
    {
        match self {
            Value::Null => Ok(Value::Null),
            Value::Flag(truth) => Ok(Value::Flag(*truth)),
            Value::Int(number) => Ok(Value::Int(*number)),
            Value::Text(text) => {
                let text = text.share()?;
                Ok(Value::Text(text))
            }
            Value::Array(array) => {
                let array = array.share()?;
                Ok(Value::Array(array))
            }
        }
    }

    /// The text that this value is, or else the value itself.
    pub fn into_text(self) -> Result<Text, Value>
        ensures { MatchResult result (λ text. plain_of self ≡ Plain.text text)
            (λ other. plain_of other ≡ plain_of self) }
    {
        match self {
            Value::Text(text) => Ok(text),
            other => Err(other),
        }
    }

    /// How many arrays stand in one another: 0 for a value that is no array, and 1 for an array
    /// without arrays in it.
    pub fn depth(&self) -> u64
        ensures depth { result ≡ depth (plain_of self.now) }
        ensures small { result ≤ DEPTH_LIMIT }
    {
        match self {
            Value::Array(array) => 1 + array.members.deepest(),
            Value::Null | Value::Flag(_) | Value::Int(_) | Value::Text(_) => 0,
        }
    }
}

impl Array {
    /// The empty array.
    pub fn new(alloc: Global) -> Result<Array, NoMemory>
        ensures { IfOk result (λ a. a ≡ empty) }
    {
        let members = Rc::new(alloc, Members::new(alloc))?;
        Ok(Array { members })
    }

    /// The same array once more. The members are not copied.
    pub fn share(&self) -> Result<Array, NoMemory>
        ensures { IfOk result (λ a. a ≡ self.now) }
    {
        let members = self.members.clone()?;
        Ok(Array { members })
    }

    /// The pairs, in the order in which their keys came.
    pub fn pairs(&self) -> &[(Key, Value)]
        ensures pairs { pairs_of result.now ≡ self.now }
        ensures distinct { are_distinct (keys self.now) ≡ true }
        ensures shallow { depth (Plain.array self.now) ≤ DEPTH_LIMIT }
    {
        self.members.pairs()
    }

    /// The key that an append takes: the largest integer key plus 1, and 0 where there is none;
    /// None exactly where that largest key is the last integer.
    pub fn next_key(&self) -> Option<i64>
        ensures { result ≡ key_after (largest_key self.now) }
    {
        self.members.next_key()
    }

    /// The value at a key, if the key is there.
    pub fn find(&self, key: &Key) -> Option<&Value>
        ensures there { is_none result ≡ is_absent (keys self.now) (plain_key key.now) }
        ensures some { IfSome result (λ v. member self.now (plain_key key.now) ≡ plain_of v.now) }
        ensures none { IfNone result (member self.now (plain_key key.now) ≡ Plain.null) }
    {
        self.members.find(key)
    }

    /// Puts a value at a key: at its place where the key is there, behind the others where it is
    /// not. In place where no other array holds the members, and else one level is copied. Faults
    /// Long exactly where the array would be nested deeper than 1,000; after a fault nothing has
    /// changed.
    pub fn put(&mut self, key: Key, value: Value) -> Result<(), Fault>
        ensures ok { OnOk result
            (within_depth (put_pair self.old (plain_key key) (plain_of value))
            ≡ Ok (Plain.array self.new)) }
        ensures err { IfErr result (λ fault. (fault ≡ Fault.Memory)
            ⊎ (within_depth (put_pair self.old (plain_key key) (plain_of value)) ≡ Err fault)) }
        ensures unchanged { OnErr result (self.new ≡ self.old) }
    {
        if value.depth() >= DEPTH_LIMIT {
            return Err(Fault::Long);
        }
        self.set(key, value)?;
        Ok(())
    }

    // Puts a value at a key: at its place, or behind the others.
    fn set(&mut self, key: Key, value: Value) -> Result<(), NoMemory>
        requires { depth (plain_of value) < DEPTH_LIMIT }
        ensures ok { OnOk result (self.new ≡ put_pair self.old (plain_key key) (plain_of value)) }
        ensures err { OnErr result (self.new ≡ self.old) }
        ensures shallow { deepest self.old < DEPTH_LIMIT }
    {
        // For its clause: no array is too deep.
        let _deep = self.members.deepest();
        let own = Rc::make_mut(&mut self.members)?;
        own.put(key, value)
    }

    /// Puts a value behind the others, at the largest integer key plus 1, or at 0 where there is
    /// none; as `put` in all else. Faults Full exactly where that largest key is the last integer.
    pub fn push(&mut self, value: Value) -> Result<(), Fault>
        ensures ok { OnOk result
            (push_at self.old (key_after (largest_key self.old)) (plain_of value)
            ≡ Ok (Plain.array self.new)) }
        ensures err { IfErr result (λ fault. (fault ≡ Fault.Memory)
            ⊎ (push_at self.old (key_after (largest_key self.old)) (plain_of value) ≡ Err fault)) }
        ensures unchanged { OnErr result (self.new ≡ self.old) }
    {
        match self.members.next_key() {
            None => Err(Fault::Full),
            Some(next) => self.put(Key::Int(next), value),
        }
    }
}
