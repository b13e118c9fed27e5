//! A key that is told apart, and where a written key stands among them.

ghost use Rattle.std.specs.Prelude.{◌≡◌, IfOk};
ghost use Rattle.plain_values.specs.Plain.{int_key, text_key};
ghost use Rattle.plain_values.specs.Keys.{canonical_integer, canonical_key, same_key};
ghost use Rattle.flow_code.specs.View.{plain_key_ref};
ghost use Rattle.loose_sets.specs.Keys.{literal_key};
ghost use Rattle.loose_sets.specs.Uses.{number_from};
ghost use Rattle.point_listing.specs.Views.{key_seen, keys_seen, place_in};

use flow_code::KeyRef;
use plain_values::canonical_integer;
use std::alloc::Global;
use text_base::{Bytes, NoMemory};

/// A key that is told apart.
#[derive(Debug, Drop)]
pub enum ToldKey {
    /// An integer.
    Int(i64),
    /// A text that is no canonical decimal integer.
    Text(Bytes),
}

impl ToldKey {
    /// Is it this integer?
    pub(crate) fn is_int(&self, number: i64) -> bool
        ensures { result ≡ same_key (int_key number) (key_seen self.now) }
    {
        match self {
            ToldKey::Int(other) => number == *other,
            ToldKey::Text(_) => false,
        }
    }

    /// Is it this text?
    pub(crate) fn is_text(&self, text: &[u8]) -> bool
        ensures { result ≡ same_key (text_key text.now) (key_seen self.now) }
    {
        match self {
            ToldKey::Int(_) => false,
            ToldKey::Text(other) => text == other.as_slice(),
        }
    }
}

// Where an integer stands among the keys.
#[tactic(auto, unfolding(loose_sets::specs::Uses::number_from))]
fn place_of_int(number: i64, told: &[ToldKey]) -> Option<u64>
    ensures { result ≡ number_from 0 (int_key number) (keys_seen told.now) }
{
    for (place, key) in told.iter().enumerate() {
        if key.is_int(number) {
            return Some(place as u64);
        }
    }
    None
}

// Where a text stands among them.
#[tactic(auto, unfolding(loose_sets::specs::Uses::number_from))]
fn place_of_text(text: &[u8], told: &[ToldKey]) -> Option<u64>
    ensures { result ≡ number_from 0 (text_key text.now) (keys_seen told.now) }
{
    for (place, key) in told.iter().enumerate() {
        if key.is_text(text) {
            return Some(place as u64);
        }
    }
    None
}

/// Where the key that a text stands for is among those that are told apart, if it is.
pub(crate) fn place_of_text_key(
    alloc: Global,
    text: &[u8],
    told: &[ToldKey],
) -> Result<Option<u64>, NoMemory>
    ensures { IfOk result (λ place. place
        ≡ number_from 0 (canonical_key text.now (canonical_integer text.now)) (keys_seen told.now)) }
{
    match canonical_integer(alloc, text)? {
        Some(number) => Ok(place_of_int(number, told)),
        None => Ok(place_of_text(text, told)),
    }
}

/// Where a written key stands among those that are told apart: None where it is no literal, and
/// None inside where it is none of them.
#[tactic(auto, unfolding(loose_sets::specs::Keys::literal_key))]
pub fn place_of_key(
    alloc: Global,
    key: &KeyRef,
    told: &[ToldKey],
) -> Result<Option<Option<u64>>, NoMemory>
    ensures { IfOk result (λ place. place
        ≡ place_in (keys_seen told.now) (literal_key (plain_key_ref key.now))) }
{
    match key {
        KeyRef::Int(number) => Ok(Some(place_of_int(*number, told))),
        KeyRef::Text(text) => Ok(Some(place_of_text_key(alloc, text.as_slice(), told)?)),
        KeyRef::Read(_) => Ok(None),
    }
}
