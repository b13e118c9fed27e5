//! Which of the keys a written key may be.

ghost use Rattle.std.specs.Prelude.{◌≡◌, IfOk};
ghost use Rattle.plain_values.specs.Keys.{canonical_integer, canonical_key, same_key};
ghost use Rattle.flow_code.specs.View.{plain_maybe_key};
ghost use Rattle.loose_sets.specs.Keys as keys;
ghost use Rattle.point_listing.specs.Views.{key_seen, keys_seen};

use crate::key::{ToldKey, place_of_key};
use flow_code::KeyRef;
use plain_values::canonical_integer;
use std::alloc::Global;
use text_base::NoMemory;

/// Is the key an integer?
pub fn is_integer_key(told: &ToldKey) -> bool
    ensures { result ≡ keys.is_integer_key (key_seen told.now) }
{
    match told {
        ToldKey::Int(_) => true,
        ToldKey::Text(_) => false,
    }
}

// Is it the key that this text stands for?
fn is_text_key(alloc: Global, text: &[u8], told: &ToldKey) -> Result<bool, NoMemory>
    ensures { IfOk result (λ r. r
        ≡ same_key (canonical_key text.now (canonical_integer text.now)) (key_seen told.now)) }
{
    match canonical_integer(alloc, text)? {
        Some(number) => Ok(told.is_int(number)),
        None => Ok(told.is_text(text)),
    }
}

/// May a written key, or the key that comes next where none is written, be this one?
#[tactic(auto, unfolding(loose_sets::specs::Keys::may_be, loose_sets::specs::Keys::literal_key))]
pub fn may_be(alloc: Global, key: &Option<KeyRef>, told: &ToldKey) -> Result<bool, NoMemory>
    ensures { IfOk result (λ r. r ≡ keys.may_be (plain_maybe_key key.now) (key_seen told.now)) }
{
    match key {
        None => Ok(is_integer_key(told)),
        Some(KeyRef::Int(number)) => Ok(told.is_int(*number)),
        Some(KeyRef::Text(text)) => is_text_key(alloc, text.as_slice(), told),
        Some(KeyRef::Read(_)) => Ok(true),
    }
}

/// Is a written key a literal, and this key?
#[tactic(auto, unfolding(loose_sets::specs::Keys::is_exactly, loose_sets::specs::Keys::literal_key))]
pub fn is_exactly(alloc: Global, key: &Option<KeyRef>, told: &ToldKey) -> Result<bool, NoMemory>
    ensures { IfOk result (λ r. r ≡ keys.is_exactly (plain_maybe_key key.now) (key_seen told.now)) }
{
    match key {
        None => Ok(false),
        Some(KeyRef::Int(number)) => Ok(told.is_int(*number)),
        Some(KeyRef::Text(text)) => is_text_key(alloc, text.as_slice(), told),
        Some(KeyRef::Read(_)) => Ok(false),
    }
}

/// May it be none of the keys that are told apart?
#[tactic(auto, unfolding(loose_sets::specs::Keys::may_be_other))]
pub fn may_be_other(alloc: Global, key: &Option<KeyRef>, told: &[ToldKey]) -> Result<bool, NoMemory>
    ensures { IfOk result (λ r. r
        ≡ keys.may_be_other (plain_maybe_key key.now) (keys_seen told.now)) }
{
    let Some(key) = key else {
        return Ok(true);
    };
    match place_of_key(alloc, key, told)? {
        None => Ok(true),
        Some(None) => Ok(true),
        Some(Some(_)) => Ok(false),
    }
}
