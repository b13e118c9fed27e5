//! The request of a request file.

ghost use Rattle.std.specs.Prelude.{◌≡◌, IfOk, IfErr};
ghost use Rattle.request_reading.specs.Outcome.{outcome, stands_for};
ghost use Rattle.request_reading.specs.Causes.{IsCause};

use crate::Request;
use crate::arrays::asked_request;
use crate::form::is_request;
use crate::parsing::parse;
use crate::refusal::RequestRefusal;
use crate::straying::stray_path;
use std::alloc::Global;

/// The request that the bytes of a request file stand for, whose arrays are admitted. NotJson
/// exactly where the bytes are no JSON in UTF-8 that nests at most 127 deep; NotRequest exactly
/// where they are, and the value has not the form of a request; NotAdmitted exactly where it has,
/// and a text or a name in it is not of XML's characters, with the path to the first one. Takes
/// time linear in the bytes, times the logarithm of the count of names of an object.
pub fn read_request(alloc: Global, file: &[u8]) -> Result<Request, RequestRefusal>
    ensures ok { IfOk result (λ request. outcome file.now ≡ stands_for request) }
    ensures err { IfErr result (λ refusal. IsCause refusal (outcome file.now)) }
{
    let value = parse(alloc, file)?;
    if !is_request(&value) {
        return Err(RequestRefusal::NotRequest);
    }
    if let Some(path) = stray_path(alloc, &value)? {
        return Err(RequestRefusal::NotAdmitted { path });
    }
    let request = asked_request(alloc, &value)?;
    Ok(request)
}
