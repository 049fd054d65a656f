ghost use Rattle.std.specs.Prelude.{◌≡◌, IfOk, string_bytes};
ghost use Rattle.cv_scan_output.specs.Scan.{desk_fault_text, good_data, good_text, layer_data};
ghost use Rattle.serde_json.specs.View.{view};

use crate::finding::findings_value;
use crate::line::line_of;
use cv_base::{Digest, Finding, NoMemory};
use serde_json::{Value, json};
use std::alloc::Global;

/// The line of a scan that found its image whole: `{"findings":[..],"image":"..","reply":"good"}`.
#[tactic(auto, unfolding(crate::specs::Scan::good_text))]
pub fn good_line(alloc: Global, image: &Digest, findings: &[Finding]) -> Result<String, NoMemory>
    ensures { IfOk result (λ line. string_bytes line ≡ good_text image.now findings.now) }
{
    let value = good_value(alloc, image, findings)?;
    line_of(alloc, &value)
}

fn good_value(alloc: Global, image: &Digest, findings: &[Finding]) -> Result<Value, NoMemory>
    ensures { IfOk result (λ value. view value ≡ good_data image.now findings.now) }
{
    let findings = findings_value(alloc, findings)?;
    let image = image.text(alloc)?;
    Ok(json!(in alloc; {"findings": findings, "image": image.as_str(), "reply": "good"})?)
}

/// The line of a layer that could not be read: `{"layer":"..","refused":"desk_fault"}`.
#[tactic(auto, unfolding(crate::specs::Scan::desk_fault_text))]
pub fn desk_fault_line(alloc: Global, layer: &Digest) -> Result<String, NoMemory>
    ensures { IfOk result (λ text. string_bytes text ≡ desk_fault_text layer.now) }
{
    let value = layer_value(alloc, layer)?;
    line_of(alloc, &value)
}

fn layer_value(alloc: Global, layer: &Digest) -> Result<Value, NoMemory>
    ensures { IfOk result (λ value. view value ≡ layer_data layer.now) }
{
    let layer = layer.text(alloc)?;
    Ok(json!(in alloc; {"layer": layer.as_str(), "refused": "desk_fault"})?)
}
