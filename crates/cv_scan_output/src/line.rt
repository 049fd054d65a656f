ghost use Rattle.std.specs.Prelude.{◌≡◌, ◌≤◌, ◌++◌, ◌∷◌, [], false, IfOk, Some, string_bytes};
ghost use Rattle.serde_json.specs.Data.{depth};
ghost use Rattle.serde_json.specs.Read.{max_depth, read};
ghost use Rattle.serde_json.specs.View.{view};
ghost use Rattle.serde_json.specs.Written.{compact_text, has_float};
ghost use Rattle.cv_scan_output.specs.Line.{line_text};

use cv_base::NoMemory;
use serde_json::Value;
use std::alloc::Global;

/// The line of a value: its compact text and an LF.
#[tactic(auto, unfolding(crate::specs::Line::line_text))]
pub fn line_of(alloc: Global, value: &Value) -> Result<String, NoMemory>
    requires { has_float (view value.now) ≡ false }
    ensures { IfOk result (λ line. string_bytes line ≡ line_text (view value.now)) }
{
    ended(json_of(alloc, value)?)
}

/// The compact text of a value, which reads back as the value.
pub fn json_of(alloc: Global, value: &Value) -> Result<String, NoMemory>
    requires { has_float (view value.now) ≡ false }
    ensures text { IfOk result (λ json. string_bytes json ≡ compact_text (view value.now)) }
    ensures reads_back { IfOk result (λ _. depth (view value.now) ≤ max_depth → read (compact_text (view value.now)) ≡ Some (view value.now)) }
{
    Ok(value.to_string(alloc)?)
}

/// A text and an LF.
pub fn ended(mut text: String) -> Result<String, NoMemory>
    ensures { IfOk result (λ line. string_bytes line ≡ string_bytes text ++ 10 ∷ []) }
{
    text.push('\n')?;
    Ok(text)
}
