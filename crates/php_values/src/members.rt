//! The members of an array: its pairs, and the index of their keys.

ghost use Rattle.std.specs.Prelude.{◌≡◌, ◌⊎◌, ◌∷◌, [], ◌++◌, ◌^◌, ℕ, List, length, ◌<◌, ◌≤◌, true, IfOk, IfErr, OnOk, OnErr, IfSome, IfNone, is_none, Some, None, slice_index_or, slice_set};
ghost use Rattle.text_base.specs.declared.limits.TheConstants.{DEPTH_LIMIT};
ghost use Rattle.plain_values.specs.Plain.{Plain, keys, empty, depth, deepest, depth as depth_of};
ghost use Rattle.plain_values.specs.Keys.{is_absent, are_distinct};
ghost use Rattle.plain_values.specs.Members.{member, put_pair, key_after, largest_key, larger as larger_key};
ghost use Rattle.plain_values.specs.Paths.{named_key};
ghost use Rattle.php_values.specs.View.{plain_of, plain_key, pairs_of, plain_step};
ghost use Rattle.php_values.specs.declared.key.Key.{Key};
ghost use Rattle.php_values.specs.declared.array.Value.{Value};
ghost use Rattle.php_values.specs.Index.{place as place_of, HasDeepest};

use crate::array::{Deepest, Members, Value};
use crate::key::Key;
use plain_values::Fault;
use std::alloc::{AllocError, Global};
use std::collections::BTreeMap;
use text_base::NoMemory;

impl Members {
    /// No members.
    pub(crate) fn new(alloc: Global) -> Members
        ensures { result ≡ empty }
    {
        Members {
            pairs: Vec::new(alloc),
            places: BTreeMap::new(alloc),
            largest: None,
            deepest: Deepest { depth: 0, count: 0 },
        }
    }

    // The pairs, in the order in which their keys came.
    pub(crate) fn pairs(&self) -> &[(Key, Value)]
        ensures pairs { pairs_of result.now ≡ self.now }
        ensures distinct { are_distinct (keys self.now) ≡ true }
        ensures shallow { deepest self.now < DEPTH_LIMIT }
    {
        self.pairs.as_slice()
    }

    // The depth of the deepest member.
    pub(crate) fn deepest(&self) -> u64
        ensures depth { result ≡ deepest self.now }
        ensures small { result < DEPTH_LIMIT }
    {
        self.deepest.depth
    }

    // The key that an append takes.
    pub(crate) fn next_key(&self) -> Option<i64>
        ensures { result ≡ key_after (largest_key self.now) }
    {
        match self.largest {
            None => Some(0),
            Some(last) => last.checked_add(1),
        }
    }

    // The key that a step of a path names.
    pub(crate) fn key_at(&self, step: &Option<Key>) -> Result<Key, Fault>
        ensures ok { IfOk result
            (λ key. named_key (plain_step step.now) (key_after (largest_key self.now))
            ≡ Some (plain_key key)) }
        ensures err { IfErr result (λ fault. (fault ≡ Fault.Memory)
            ⊎ ((named_key (plain_step step.now) (key_after (largest_key self.now)) ≡ None)
            × (fault ≡ Fault.Full))) }
    {
        match step {
            Some(key) => {
                let key = key.share()?;
                Ok(key)
            }
            None => match self.next_key() {
                None => Err(Fault::Full),
                Some(next) => Ok(Key::Int(next)),
            },
        }
    }

    // The place of a key.
    pub(crate) fn place(&self, key: &Key) -> Option<u64>
        ensures place { result ≡ place_of (keys self.now) (plain_key key.now) }
        ensures shallow { deepest self.now < DEPTH_LIMIT }
    {
        self.places.get(key).copied()
    }

    // The value at a key, if the key is there.
    pub(crate) fn find(&self, key: &Key) -> Option<&Value>
        ensures there { is_none result ≡ is_absent (keys self.now) (plain_key key.now) }
        ensures some { IfSome result (λ v. member self.now (plain_key key.now) ≡ plain_of v.now) }
        ensures none { IfNone result (member self.now (plain_key key.now) ≡ Plain.null) }
    {
        match self.places.get(key) {
            None => None,
            Some(place) => Some(&self.pairs[*place as usize].1),
        }
    }

    // Changes the value at a place.
    pub(crate) fn replace(&mut self, key: &Key, place: u64, value: Value)
        requires known { place_of (keys self.old) (plain_key key.now) ≡ Some place }
        requires shallow { depth (plain_of value) < DEPTH_LIMIT }
        ensures { self.new ≡ put_pair self.old (plain_key key.now) (plain_of value) }
    {
        let member = &mut self.pairs[place as usize].1;
        let before = member.depth();
        let after = value.depth();
        *member = value;
        self.deepest = deepest_after(self.deepest, before, after, &self.pairs);
    }

    // Puts a pair behind the others.
    pub(crate) fn add(&mut self, key: Key, value: Value) -> Result<(), NoMemory>
        requires absent { place_of (keys self.old) (plain_key key) ≡ None }
        requires shallow { depth (plain_of value) < DEPTH_LIMIT }
        ensures ok { OnOk result (self.new ≡ put_pair self.old (plain_key key) (plain_of value)) }
        ensures err { OnErr result (self.new ≡ self.old) }
    {
        let own = key.share()?;
        self.pairs.reserve(1)?;
        self.places.insert(own, self.pairs.len() as u64)?;
        self.largest = larger(&key, self.largest);
        self.deepest = deepest_with(self.deepest, value.depth());
        match self.pairs.push((key, value)) {
            Ok(()) => Ok(()),
            Err(_) => unreachable!(),
        }
    }

    // Puts a value at a key: at its place, or behind the others.
    pub(crate) fn put(&mut self, key: Key, value: Value) -> Result<(), NoMemory>
        requires { depth (plain_of value) < DEPTH_LIMIT }
        ensures ok { OnOk result (self.new ≡ put_pair self.old (plain_key key) (plain_of value)) }
        ensures err { OnErr result (self.new ≡ self.old) }
    {
        match self.place(&key) {
            Some(place) => {
                self.replace(&key, place, value);
                Ok(())
            }
            None => self.add(key, value),
        }
    }
}

impl Members {
    // The same members once more: one level is copied, and what the members hold is shared.
    fn copy(&self) -> Result<Members, NoMemory>
        ensures { IfOk result (λ m. m ≡ self.now) }
    {
        let mut made = Members::new(*self.pairs.allocator());
        for pair in &self.pairs {
            let key = pair.0.share()?;
            let value = pair.1.share()?;
            made.add(key, value)?;
        }
        Ok(made)
    }
}

impl Clone for Members {
    ghost is_clone = { λ m copy. copy ≡ m };

    // For a write into one of two arrays that hold the same members.
    fn clone(&self) -> Result<Members, AllocError> {
        match self.copy() {
            Ok(members) => Ok(members),
            Err(_) => Err(AllocError),
        }
    }
}

// The larger of an integer key and the largest one before it.
fn larger(key: &Key, best: Option<i64>) -> Option<i64>
    ensures { result ≡ larger_key (plain_key key.now) best }
{
    match (key, best) {
        (Key::Int(number), None) => Some(*number),
        (Key::Int(number), Some(before)) => Some((*number).max(before)),
        (Key::Text(_), best) => best,
    }
}

// The deepest members of an array with one more, of this depth.
fn deepest_with(deepest: Deepest, depth: u64) -> Deepest
    ensures { (xs : List (Key × Value)) (x : Key × Value) → length xs < 2 ^ 63
        → HasDeepest deepest.depth deepest.count xs → depth ≡ depth_of (plain_of x.1)
        → HasDeepest result.depth result.count (xs ++ x ∷ []) }
{
    if depth > deepest.depth {
        return Deepest { depth, count: 1 };
    }
    if depth < deepest.depth {
        return deepest;
    }
    Deepest {
        depth,
        count: deepest.count.saturating_add(1),
    }
}

// The deepest of some members.
fn deepest_of(pairs: &[(Key, Value)]) -> Deepest
    ensures { HasDeepest result.depth result.count pairs.now }
{
    let mut deepest = Deepest { depth: 0, count: 0 };
    for pair in pairs {
        deepest = deepest_with(deepest, pair.1.depth());
    }
    deepest
}

// The deepest members after one changed its depth.
pub(crate) fn deepest_after(
    deepest: Deepest,
    before: u64,
    after: u64,
    pairs: &[(Key, Value)],
) -> Deepest
    ensures { (xs : List (Key × Value)) (place : ℕ) (old new : Key × Value)
        → place < length xs → length xs < 2 ^ 63 → HasDeepest deepest.depth deepest.count xs
        → before ≡ depth_of (plain_of (slice_index_or xs place old).1)
        → after ≡ depth_of (plain_of new.1) → pairs.now ≡ slice_set xs place new
        → HasDeepest result.depth result.count pairs.now }
{
    if after > deepest.depth {
        return Deepest {
            depth: after,
            count: 1,
        };
    }
    if before == deepest.depth {
        if after == deepest.depth {
            return deepest;
        }
        if deepest.count > 1 {
            return Deepest {
                depth: deepest.depth,
                count: deepest.count - 1,
            };
        }
        return deepest_of(pairs);
    }
    if after == deepest.depth {
        return Deepest {
            depth: after,
            count: deepest.count.saturating_add(1),
        };
    }
    deepest
}
