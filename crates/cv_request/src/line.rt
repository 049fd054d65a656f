ghost use Rattle.std.specs.Prelude.{◌≡◌};
ghost use Rattle.serde_json.specs.View.{view};
ghost use Rattle.cv_base.specs.Answer.{MatchesUnlessOutOfMemory};
ghost use Rattle.cv_request.specs.Fault.{fault_of};
ghost use Rattle.cv_request.specs.Line.{json_or};

use crate::error::RequestError;
use serde_json::Value;
use std::alloc::Global;
use std::str;

/// Reads a line as JSON (RFC 8259, as serde_json reads it). `BadJson` if it is not UTF-8 or not JSON.
#[tactic(auto, using(cv_seq::proofs::Utf8::text_found, cv_seq::proofs::Utf8::none_found))]
pub fn read_json(alloc: Global, line: &[u8]) -> Result<Value, RequestError>
    ensures { MatchesUnlessOutOfMemory fault_of view result (json_or line.now) }
{
    let Ok(text) = str::from_utf8(line) else {
        return Err(RequestError::BadJson);
    };
    match Value::from_str(alloc, text) {
        Ok(value) => Ok(value),
        Err(error) => {
            if error.is_memory() {
                Err(RequestError::NoMemory)
            } else {
                Err(RequestError::BadJson)
            }
        }
    }
}
