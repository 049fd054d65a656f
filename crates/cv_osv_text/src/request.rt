ghost use Rattle.std.specs.Prelude.{◌<◌, IfOk};
ghost use Rattle.cv_base.specs.Answer.{MatchesUnlessOutOfMemory};
ghost use Rattle.cv_request.specs.Fault.{fault_of};
ghost use Rattle.cv_request.specs.Limits.{IsWithinLimits};
ghost use Rattle.cv_request.specs.Request.{request_line};

use crate::line::read_tree;
use crate::shared::SharedTexts;
use cv_request::{MAX_LANES, Request, RequestError, read_value};
use json::Scratch;
use std::alloc::Global;

/// Reads a line as a request, as `read_json` and `read_value` of cv_request do. `BadJson` if the line is not UTF-8 or not JSON.
/// Only the texts that are kept are copied, but for those with escapes.
pub fn read_request(alloc: Global, line: &[u8]) -> Result<Request, RequestError>
    ensures value { MatchesUnlessOutOfMemory fault_of (λ request. request) result (request_line line.now) }
    ensures lane { IfOk result (λ request. request.lane < MAX_LANES) }
    ensures limits { IfOk result (λ request. IsWithinLimits request.act) }
{
    let mut texts = SharedTexts::new(alloc)?;
    let mut scratch = Scratch::new(alloc);
    request_of(alloc, line, &mut scratch, &mut texts)
}

/// The request that a line is.
fn request_of(
    alloc: Global,
    line: &[u8],
    scratch: &mut Scratch,
    texts: &mut SharedTexts,
) -> Result<Request, RequestError>
    ensures value { MatchesUnlessOutOfMemory fault_of (λ request. request) result (request_line line.now) }
    ensures lane { IfOk result (λ request. request.lane < MAX_LANES) }
    ensures limits { IfOk result (λ request. IsWithinLimits request.act) }
{
    let tree = read_tree(alloc, line, scratch)?;
    read_value(alloc, texts, &tree)
}
