ghost use Rattle.std.specs.Prelude.{◌≡◌, [], length, IfOk, OnOk};
ghost use Rattle.std.specs.List.{AllByRecursion};
ghost use Rattle.cv_serve_legal.specs.ParsedLine.{refusals, requests};
ghost use Rattle.cv_serve_dealing.specs.Sound.{IsSoundRequest, IsSoundTaken};
ghost use Rattle.cv_serve_dealing.specs.code.Dealt.{AreDealt, IsGiven};

use crate::lane::Lane;
use cv_base::NoMemory;
use cv_request::MAX_LANES;
use cv_serve_legal::{ParsedLine, Requested};
use cv_transcript::Entry;
use std::alloc::Global;

/// The entries of the refused lines, and the requests, each in input order.
pub fn divide(
    alloc: Global,
    taken: Vec<ParsedLine>,
) -> Result<(Vec<Entry>, Vec<Requested>), NoMemory>
    requires sound { AllByRecursion IsSoundTaken taken.items }
    ensures refused { IfOk result (λ parts. parts.0.items ≡ refusals taken.items) }
    ensures requests { IfOk result (λ parts. parts.1.items ≡ requests taken.items) }
    ensures sound { IfOk result (λ parts. AllByRecursion IsSoundRequest parts.1.items) }
{
    let mut refused = Vec::new(alloc);
    let mut requested = Vec::new(alloc);
    for ParsedLine { line, answer } in taken {
        match answer {
            Ok(request) => requested.push(Requested { line, request })?,
            Err(error) => refused.push(Entry::Refused { line, error })?,
        }
    }
    Ok((refused, requested))
}

/// The eight lanes with their requests, each in input order.
pub fn lanes_of(alloc: Global, requested: Vec<Requested>) -> Result<Vec<Lane>, NoMemory>
    ensures count { IfOk result (λ lanes. length lanes.items ≡ 8) }
    ensures dealt { IfOk result (λ lanes. AreDealt 0 requested.items lanes.items) }
{
    let mut lanes = empty_lanes(alloc)?;
    for one in requested {
        give(lanes.as_mut_slice(), one)?;
    }
    Ok(lanes)
}

/// Eight lanes without requests.
fn empty_lanes(alloc: Global) -> Result<Vec<Lane>, NoMemory>
    ensures count { IfOk result (λ lanes. length lanes.items ≡ 8) }
    ensures empty { IfOk result (λ lanes. AreDealt 0 [] lanes.items) }
{
    let mut lanes = Vec::new(alloc);
    for number in 0..MAX_LANES {
        lanes.push(Lane {
            number,
            requested: Vec::new(alloc),
            reads: Vec::new(alloc),
        })?;
    }
    Ok(lanes)
}

/// Gives a request to the lane of its number. Without such a lane it is dropped.
fn give(lanes: &mut [Lane], one: Requested) -> Result<(), NoMemory>
    ensures { OnOk result (IsGiven 0 one lanes.old lanes.new) }
{
    let lane = usize::from(one.request.lane);
    if lane < lanes.len() {
        lanes[lane].requested.push(one)?;
    }
    Ok(())
}
