ghost use Rattle.std.specs.Prelude.{◌≡◌, ◌++◌, ◌∷◌, [], false, OnOk, IfOk, string_bytes};
ghost use Rattle.serde_json.specs.View.{view};
ghost use Rattle.serde_json.specs.Written.{has_float};
ghost use Rattle.cv_drill.specs.Lines.{json_text, lines_text};

use cv_base::NoMemory;
use serde_json::Value;
use std::alloc::Global;

/// The value without blanks.
#[tactic(auto, unfolding(crate::specs::Lines::json_text))]
pub fn json_text(alloc: Global, value: &Value) -> Result<String, NoMemory>
    requires { has_float (view value.now) ≡ false }
    ensures { IfOk result (λ text. string_bytes text ≡ json_text (view value.now)) }
{
    Ok(value.to_string(alloc)?)
}

/// Appends the value as a line.
pub fn push_value(alloc: Global, text: &mut String, value: &Value) -> Result<(), NoMemory>
    requires { has_float (view value.now) ≡ false }
    ensures { OnOk result (string_bytes text.new ≡ string_bytes text.old ++ lines_text (json_text (view value.now) ∷ [])) }
{
    let line = json_text(alloc, value)?;
    text.push_str(line.as_str())?;
    text.push('\n')?;
    Ok(())
}

/// Appends an empty line.
pub fn end_round(text: &mut String) -> Result<(), NoMemory>
    ensures { OnOk result (string_bytes text.new ≡ string_bytes text.old ++ lines_text ([] ∷ [])) }
{
    text.push('\n')?;
    Ok(())
}
