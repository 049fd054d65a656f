ghost use Rattle.std.specs.Prelude.{◌≡◌, IfOk, Option};
ghost use Rattle.std.specs.Option.{option_map};
ghost use Rattle.serde_json.specs.View.{view};
ghost use Rattle.cv_scan_output.specs.Finding.{finding_data, findings_data, fixed_data, kind_text};

use crate::object::Object;
use cv_base::{Finding, NoMemory, PackageKind, Text};
use serde_json::Value;
use std::alloc::Global;

/// The JSON of a list of findings.
pub fn findings_value(alloc: Global, findings: &[Finding]) -> Result<Value, NoMemory>
    ensures { IfOk result (λ value. view value ≡ findings_data findings.now) }
{
    let mut items = Vec::new(alloc);
    for finding in findings {
        items.push(finding_value(alloc, finding)?)?;
    }
    Ok(Value::Array(items))
}

/// The JSON of one finding.
pub fn finding_value(alloc: Global, finding: &Finding) -> Result<Value, NoMemory>
    ensures { IfOk result (λ value. view value ≡ finding_data finding.now) }
{
    let package = &finding.package;
    Ok(
        Object::new(alloc)
            .text(alloc, "advisory", finding.advisory.as_str())?
            .text(alloc, "arch", package.arch.as_str())?
            .text(alloc, "ecosystem", package.ecosystem.as_str())?
            .text(alloc, "feed", finding.feed.as_str())?
            .value(alloc, "fixed", fixed_value(alloc, finding.fixed.as_ref())?)?
            .text(alloc, "kind", kind_text(package.kind))?
            .text(alloc, "name", package.name.as_str())?
            .text(alloc, "path", package.path.text())?
            .text(alloc, "source", package.source.as_str())?
            .text(alloc, "source_version", package.source_version.as_str())?
            .text(alloc, "version", package.version.as_str())?
            .done(),
    )
}

/// A version that has the fix, or null.
fn fixed_value(alloc: Global, fixed: Option<&Text>) -> Result<Value, NoMemory>
    ensures { IfOk result (λ value. view value ≡ fixed_data (option_map (λ text. text.now) fixed.entry)) }
{
    match fixed {
        None => Ok(Value::Null),
        Some(text) => Ok(Value::String(String::from_str(alloc, text.as_str())?)),
    }
}

/// The printed name of a kind.
pub fn kind_text(kind: PackageKind) -> &'static str
    ensures { result.now ≡ kind_text kind }
{
    match kind {
        PackageKind::Deb => "deb",
        PackageKind::Apk => "apk",
        PackageKind::Npm => "npm",
        PackageKind::Pypi => "pypi",
    }
}
