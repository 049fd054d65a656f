ghost use Rattle.std.specs.Prelude.{◌≡◌, IfOk, string_bytes};
ghost use Rattle.std.specs.Option.{option_map};
ghost use Rattle.serde_json.specs.Data.{string};
ghost use Rattle.serde_json.specs.View.{view};
ghost use Rattle.cv_base.specs.Digest.{digest_text};
ghost use Rattle.cv_list_output.specs.Good.{image_data, list_good_data, list_good_text};

use cv_base::{Digest, Finding, NoMemory};
use cv_scan_output::{findings_value, line_of};
use serde_json::{Value, json};
use std::alloc::Global;

/// The line of a list of components that was scanned: `{"findings":[..],"image":"..","reply":"good","skipped":0}`.
#[tactic(auto, unfolding(crate::specs::Good::list_good_text))]
pub fn list_good_line(
    alloc: Global,
    image: Option<&Digest>,
    findings: &[Finding],
    skipped: u64,
) -> Result<String, NoMemory>
    ensures { IfOk result (λ line. string_bytes line ≡ list_good_text (option_map (λ digest. digest.now) image.entry) findings.now skipped) }
{
    let value = list_good_value(alloc, image, findings, skipped)?;
    line_of(alloc, &value)
}

fn list_good_value(
    alloc: Global,
    image: Option<&Digest>,
    findings: &[Finding],
    skipped: u64,
) -> Result<Value, NoMemory>
    ensures { IfOk result (λ value. view value ≡ list_good_data (option_map (λ digest. digest.now) image.entry) findings.now skipped) }
{
    let findings = findings_value(alloc, findings)?;
    let image = image_value(alloc, image)?;
    Ok(
        json!(in alloc; {"findings": findings, "image": image, "reply": "good", "skipped": skipped})?,
    )
}

/// The digest of an image, or null.
fn image_value(alloc: Global, image: Option<&Digest>) -> Result<Value, NoMemory>
    ensures { IfOk result (λ value. view value ≡ image_data (option_map (λ digest. digest.now) image.entry)) }
{
    match image {
        None => Ok(Value::Null),
        Some(digest) => digest_value(alloc, digest),
    }
}

fn digest_value(alloc: Global, digest: &Digest) -> Result<Value, NoMemory>
    ensures { IfOk result (λ value. view value ≡ string (digest_text digest.now)) }
{
    let text = digest.text(alloc)?;
    Ok(Value::String(String::from_str(alloc, text.as_str())?))
}
