//! The value of a file of JSON.

ghost use Rattle.std.specs.Prelude.{◌≡◌, ◌≤◌, ◌⊎◌, IfOk, IfErr, Some, None};
ghost use Rattle.serde_json.specs.Data.{depth as nesting};
ghost use Rattle.serde_json.specs.View.{view};
ghost use Rattle.request_reading.specs.Outcome.{parsed};
ghost use Rattle.request_reading.specs.declared.refusal.RequestRefusal.TheVariants as refusal_is;

use crate::refusal::RequestRefusal;
use serde_json::Value;
use std::alloc::Global;

/// The value that the bytes are by JSON, with an object's members in byte order of their names,
/// which nests at most 127 deep. NotJson exactly where they are none.
pub fn parse(alloc: Global, file: &[u8]) -> Result<Value, RequestRefusal>
    ensures ok { IfOk result (λ v. parsed file.now ≡ Some (view v)) }
    ensures nests { IfOk result (λ v. nesting (view v) ≤ 127) }
    ensures err { IfErr result (λ refusal. (refusal ≡ refusal_is.Memory)
        ⊎ ((refusal ≡ refusal_is.NotJson) × (parsed file.now ≡ None))) }
{
    match Value::from_slice(alloc, file) {
        Ok(value) => Ok(value),
        Err(error) => {
            if error.is_memory() {
                Err(RequestRefusal::Memory)
            } else {
                Err(RequestRefusal::NotJson)
            }
        }
    }
}
