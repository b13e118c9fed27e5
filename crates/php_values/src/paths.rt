//! Reading and writing at the end of a path of subscripts.

ghost use Rattle.std.specs.Prelude.{◌≡◌, ◌⊎◌, ℕ, ◌+◌, ◌<◌, ◌≤◌, length, nat_le, true, IfOk, IfErr, OnOk, OnErr, MatchOption, Ok, Err};
ghost use Rattle.text_base.specs.declared.limits.TheConstants.{DEPTH_LIMIT};
ghost use Rattle.plain_values.specs.Plain.{Plain, depth, deepest, array};
ghost use Rattle.plain_values.specs.Members.{member, get};
ghost use Rattle.plain_values.specs.Paths as spec;
ghost use Rattle.plain_values.specs.Paths.{put_back, change_in, Releases};
ghost use Rattle.php_values.specs.View.{plain_of, plain_key, pairs_of, plain_step, plain_path};
ghost use Rattle.php_values.specs.Writes.{write_if, KeepsWrites, KeepsMember};

use crate::array::{Array, Members, Value};
use crate::key::Key;
use crate::members::deepest_after;
use plain_values::Fault;
use std::alloc::Global;
use std::rc::Rc;
use text_base::limits::DEPTH_LIMIT;

impl Value {
    /// The value at a step of a path, which is not copied; None stands for null, which is at each
    /// key that an array does not have, at each key of null, a boolean and an integer, and at the
    /// step of an append. Faults BadIndex exactly at a text. Takes no memory.
    pub fn member(&self, step: &Option<Key>) -> Result<Option<&Value>, Fault>
        ensures ok { IfOk result (λ found. MatchOption found
            (spec.get_step (plain_of self.now) (plain_step step.now) ≡ Ok Plain.null)
            (λ v. spec.get_step (plain_of self.now) (plain_step step.now) ≡ Ok (plain_of v.now))) }
        ensures err { IfErr result
            (λ fault. spec.get_step (plain_of self.now) (plain_step step.now) ≡ Err fault) }
    {
        match (self, step) {
            (Value::Null | Value::Flag(_) | Value::Int(_), _) => Ok(None),
            (Value::Text(_), _) => Err(Fault::BadIndex),
            (Value::Array(_), None) => Ok(None),
            (Value::Array(array), Some(key)) => Ok(array.find(key)),
        }
    }

    /// The value at the end of a path, as `isset($a['k']['l'])` asks for it; it is not copied, and
    /// None stands for null. From the outermost step in, faults BadIndex exactly where a member of
    /// a text is read. Takes no memory.
    pub fn read(&self, path: &[Option<Key>]) -> Result<Option<&Value>, Fault>
        ensures ok { IfOk result (λ found. MatchOption found
            (spec.read (plain_path path.now) (plain_of self.now) ≡ Ok Plain.null)
            (λ v. spec.read (plain_path path.now) (plain_of self.now) ≡ Ok (plain_of v.now))) }
        ensures err { IfErr result
            (λ fault. spec.read (plain_path path.now) (plain_of self.now) ≡ Err fault) }
    {
        match path.split_first() {
            None => Ok(Some(self)),
            Some((step, rest)) => match self.member(step)? {
                None => Ok(None),
                Some(found) => found.read(rest),
            },
        }
    }

    /// The value at a key, which is not copied (PHP manual, "Arrays"): null where an array does not
    /// have the key, and at every key of null, a boolean and an integer. Faults BadIndex exactly at
    /// a text.
    pub fn get(&self, key: &Key) -> Result<Value, Fault>
        ensures ok { IfOk result
            (λ found. get (plain_of self.now) (plain_key key.now) ≡ Ok (plain_of found)) }
        ensures err { IfErr result
            (λ fault. (fault ≡ Fault.Memory)
            ⊎ (get (plain_of self.now) (plain_key key.now) ≡ Err fault)) }
    {
        match self {
            Value::Null | Value::Flag(_) | Value::Int(_) => Ok(Value::Null),
            Value::Text(_) => Err(Fault::BadIndex),
            Value::Array(array) => match array.find(key) {
                None => Ok(Value::Null),
                Some(found) => Ok(found.share()?),
            },
        }
    }

    /// Writes a value at the end of a path, as `$a['k'][] = new` does: a step of the path is a
    /// key, or None for an append. Each array on the way is written in place where nothing else
    /// holds it, and else one level of it is copied. Null becomes an array by a write into it.
    /// From the outermost step in, faults BadIndex where another value that is no array would be
    /// written into, and Full where an append finds no next key; else faults Long exactly where an
    /// array would be nested deeper than 1,000. After a fault nothing has changed.
    pub fn write(&mut self, alloc: Global, path: &[Option<Key>], new: Value) -> Result<(), Fault>
        ensures ok { OnOk result
            (spec.write (plain_path path.now) (plain_of new) (plain_of self.old)
            ≡ Ok (plain_of self.new)) }
        ensures err { IfErr result (λ fault. (fault ≡ Fault.Memory)
            ⊎ (spec.write (plain_path path.now) (plain_of new) (plain_of self.old) ≡ Err fault)) }
        ensures unchanged { OnErr result (self.new ≡ self.old) }
    {
        // For its clause: no value is too deep.
        let _deep = self.depth();
        let fits = fits_below(path, &new);
        self.write_if(alloc, fits, path, new)
    }

    /// Lets go of the value at the end of a path, where a write by the same path is to follow: each
    /// such write gives the same as before. So a text that was read there has one holder fewer, and
    /// `$a['k'] .= e` can append to it in place: read the text, evaluate `e`, let go, append,
    /// write. Where other arrays hold a part of the path, nothing is let go. Takes no memory.
    pub fn release(&mut self, path: &[Option<Key>])
        ensures { Releases (plain_path path.now) (plain_of self.old) (plain_of self.new) }
    {
        // For its clause: no value is too deep.
        let _deep = self.depth();
        self.let_go(path);
    }

    // The same, and no value becomes deeper.
    #[cycle(let_go)]
    fn let_go(&mut self, path: &[Option<Key>])
        ensures writes { KeepsWrites (plain_path path.now) (plain_of self.old) (plain_of self.new) }
        ensures shallow { depth (plain_of self.new) ≤ depth (plain_of self.old) }
    {
        match path.split_first() {
            None => *self = Value::Null,
            Some((step, rest)) => match (self, step) {
                (Value::Array(array), Some(key)) => array.let_go(key, rest),
                _ => {}
            },
        }
    }

    // Writes a value at the end of a path, or faults Long there.
    #[cycle(write)]
    fn write_if(
        &mut self,
        alloc: Global,
        fits: bool,
        path: &[Option<Key>],
        new: Value,
    ) -> Result<(), Fault>
        requires { (fits ≡ true) → (length (plain_path path.now) + depth (plain_of new) ≤ DEPTH_LIMIT) }
        ensures ok { OnOk result
            (write_if fits (plain_path path.now) (plain_of new) (plain_of self.old)
            ≡ Ok (plain_of self.new)) }
        ensures err { IfErr result (λ fault. (fault ≡ Fault.Memory)
            ⊎ (write_if fits (plain_path path.now) (plain_of new) (plain_of self.old)
            ≡ Err fault)) }
        ensures unchanged { OnErr result (self.new ≡ self.old) }
    {
        match path.split_first() {
            None => {
                if !fits {
                    return Err(Fault::Long);
                }
                *self = new;
                Ok(())
            }
            Some((step, rest)) => match self {
                Value::Null => {
                    // What is behind null is null, down to the end of a path of any length.
                    if !fits {
                        return Err(Fault::Long);
                    }
                    let mut array = Array::new(alloc)?;
                    array.write(alloc, fits, step, rest, new)?;
                    *self = Value::Array(array);
                    Ok(())
                }
                Value::Flag(_) | Value::Int(_) | Value::Text(_) => Err(Fault::BadIndex),
                Value::Array(array) => array.write(alloc, fits, step, rest, new),
            },
        }
    }
}

impl Array {
    // Writes at the end of a path whose first step names a member of this array.
    #[cycle(write)]
    fn write(
        &mut self,
        alloc: Global,
        fits: bool,
        step: &Option<Key>,
        rest: &[Option<Key>],
        new: Value,
    ) -> Result<(), Fault>
        requires { (fits ≡ true) → (length (plain_path rest.now) + depth (plain_of new) < DEPTH_LIMIT) }
        ensures ok { OnOk result (change_in (write_if fits (plain_path rest.now) (plain_of new))
            (plain_step step.now) (Ok self.old) ≡ Ok (array self.new)) }
        ensures err { IfErr result (λ fault. (fault ≡ Fault.Memory)
            ⊎ (change_in (write_if fits (plain_path rest.now) (plain_of new)) (plain_step step.now)
            (Ok self.old) ≡ Err fault)) }
        ensures unchanged { OnErr result (self.new ≡ self.old) }
    {
        let key = self.members.key_at(step)?;
        let own = Rc::make_mut(&mut self.members)?;
        own.write(alloc, fits, &key, rest, new)
    }
}

impl Array {
    // Lets go of the value at the end of a path whose first step is a key.
    #[cycle(let_go)]
    fn let_go(&mut self, key: &Key, rest: &[Option<Key>])
        ensures writes { KeepsMember (plain_key key.now) (plain_path rest.now) self.old self.new }
        ensures shallow { deepest self.new ≤ deepest self.old }
    {
        match Rc::get_mut(&mut self.members) {
            Some(own) => own.let_go(key, rest),
            None => {}
        }
    }
}

impl Members {
    // Writes at the end of a path into the member at a key.
    #[cycle(write)]
    fn write(
        &mut self,
        alloc: Global,
        fits: bool,
        key: &Key,
        rest: &[Option<Key>],
        new: Value,
    ) -> Result<(), Fault>
        requires { (fits ≡ true) → (length (plain_path rest.now) + depth (plain_of new) < DEPTH_LIMIT) }
        ensures ok { OnOk result (put_back self.old (plain_key key.now)
            (write_if fits (plain_path rest.now) (plain_of new)
            (member self.old (plain_key key.now))) ≡ Ok (array self.new)) }
        ensures err { IfErr result (λ fault. (fault ≡ Fault.Memory)
            ⊎ (put_back self.old (plain_key key.now)
            (write_if fits (plain_path rest.now) (plain_of new)
            (member self.old (plain_key key.now))) ≡ Err fault)) }
        ensures unchanged { OnErr result (self.new ≡ self.old) }
    {
        match self.place(key) {
            Some(place) => {
                let member = &mut self.pairs[place as usize].1;
                let before = member.depth();
                member.write_if(alloc, fits, rest, new)?;
                let after = member.depth();
                self.deepest = deepest_after(self.deepest, before, after, &self.pairs);
                Ok(())
            }
            None => {
                let mut fresh = Value::Null;
                fresh.write_if(alloc, fits, rest, new)?;
                self.add(key.share()?, fresh)?;
                Ok(())
            }
        }
    }
}

impl Members {
    // Lets go of the value at the end of a path into the member at a key.
    #[cycle(let_go)]
    fn let_go(&mut self, key: &Key, rest: &[Option<Key>])
        ensures writes { KeepsMember (plain_key key.now) (plain_path rest.now) self.old self.new }
        ensures shallow { deepest self.new ≤ deepest self.old }
    {
        match self.place(key) {
            Some(place) => {
                let member = &mut self.pairs[place as usize].1;
                let before = member.depth();
                member.let_go(rest);
                let after = member.depth();
                self.deepest = deepest_after(self.deepest, before, after, &self.pairs);
            }
            None => {}
        }
    }
}

// Whether a value at the end of a path is nested no deeper than 1,000.
fn fits_below(path: &[Option<Key>], value: &Value) -> bool
    ensures { result ≡ nat_le (length (plain_path path.now) + depth (plain_of value.now)) DEPTH_LIMIT }
{
    path.len() as u64 <= DEPTH_LIMIT - value.depth()
}
