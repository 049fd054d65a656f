ghost use Rattle.std.specs.Prelude.{◌≡◌, IfOk, OnOk, string_bytes};
ghost use Rattle.serde_json.specs.View.{view};
ghost use Rattle.cv_serve_pushed.specs.HookText.{HasNoTag, hook_data, hook_text, outcome_name};

use cv_base::NoMemory;
use cv_hook::{HookLine, Outcome};
use cv_scan_output::{Object, ended, json_of};
use serde_json::Value;
use std::alloc::Global;

/// The line of an offer: `{"hook":"taken","number":1}` and an LF. Read as JSON it has no tag, so it is not taken for a line of a round.
/// It is stated of an offer that was printed, since its number has at most 64 bits.
#[tactic(auto, unfolding(crate::specs::HookText::hook_text, cv_scan_output::specs::Line::line_text))]
pub fn hook_text(alloc: Global, line: &HookLine) -> Result<String, NoMemory>
    ensures text { IfOk result (λ text. string_bytes text ≡ hook_text line.now) }
    ensures untagged { OnOk result (HasNoTag line.now) }
{
    let value = hook_value(alloc, line)?;
    ended(json_of(alloc, &value)?)
}

fn hook_value(alloc: Global, line: &HookLine) -> Result<Value, NoMemory>
    ensures { IfOk result (λ value. view value ≡ hook_data line.now) }
{
    Ok(
        Object::new(alloc)
            .value(alloc, "number", Value::from(line.number))?
            .text(alloc, "hook", outcome_name(line.outcome))?
            .done(),
    )
}

/// The printed name of an outcome.
fn outcome_name(outcome: Outcome) -> &'static str
    ensures { result.now ≡ outcome_name outcome }
{
    match outcome {
        Outcome::Taken => "taken",
        Outcome::Refused => "refused",
        Outcome::Fault => "fault",
    }
}
