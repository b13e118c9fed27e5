//! Walks over arrays.

ghost use Rattle.std.specs.Prelude.{◌≡◌, IfOk, OnErr, IfSome, IfNone};
ghost use Rattle.plain_values.specs.Plain.{Plain, Pairs, empty, pair};
ghost use Rattle.php_values.specs.View.{plain_of, plain_key};

use crate::array::{Array, Value};
use crate::key::Key;
use std::marker::Model;
use text_base::NoMemory;

/// A walk over the pairs that an array had when the walk began, whatever is written since then.
/// Contracts see it as the pairs that are left.
#[derive(Drop)]
pub struct Walk {
    array: Array,
    at: usize,
}

impl Model for Walk {
    ghost use Rattle.plain_values.specs.Plain.{Pairs};
    ghost use Rattle.plain_values.specs.Walks.{behind};
    ghost use Rattle.php_values.specs.PlainCode.{pairs_code};

    ghost Value = { Pairs };

    ghost coded = { pairs_code };

    ghost view = { λ w. behind w.at w.array };
}

impl Walk {
    /// A walk over an array from its first pair. The members are not copied.
    pub fn new(array: &Array) -> Result<Walk, NoMemory>
        ensures { IfOk result (λ w. w ≡ array.now) }
    {
        let array = array.share()?;
        Ok(Walk { array, at: 0 })
    }

    /// The next pair, and None where no pair is left. For want of memory the walk stays.
    pub fn next(&mut self) -> Result<Option<(Key, Value)>, NoMemory>
        ensures some { IfOk result
            (λ next. IfSome next (λ p. self.old ≡ pair (plain_key p.0) (plain_of p.1) self.new)) }
        ensures none { IfOk result (λ next. IfNone next ((self.old ≡ empty) × (self.new ≡ empty))) }
        ensures unchanged { OnErr result (self.new ≡ self.old) }
    {
        let pairs = self.array.pairs();
        if self.at >= pairs.len() {
            return Ok(None);
        }
        let pair = &pairs[self.at];
        let key = pair.0.share()?;
        let value = pair.1.share()?;
        self.at += 1;
        Ok(Some((key, value)))
    }
}
