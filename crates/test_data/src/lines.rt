use cv_base::{Finding, NoMemory, Package, Text};
use std::alloc::Global;

/// Packages with all that they say of themselves, a line each.
pub fn package_lines(alloc: Global, packages: &[Package]) -> Result<String, NoMemory> {
    let mut lines = String::new(alloc);
    for package in packages {
        add_line(&mut lines, package_text(alloc, package)?.as_str())?;
    }
    Ok(lines)
}

/// Findings with all that they say, a line each.
pub fn finding_lines(alloc: Global, findings: &[Finding]) -> Result<String, NoMemory> {
    let mut lines = String::new(alloc);
    for finding in findings {
        add_line(&mut lines, finding_text(alloc, finding)?.as_str())?;
    }
    Ok(lines)
}

fn add_line(lines: &mut String, line: &str) -> Result<(), NoMemory> {
    lines.push_str(line)?;
    lines.push_str("\n")?;
    Ok(())
}

/// The package of a finding, its feed and its record, and the version that is fixed.
pub fn finding_text(alloc: Global, finding: &Finding) -> Result<String, NoMemory> {
    let package = package_text(alloc, &finding.package)?;
    let fixed = match &finding.fixed {
        Some(fixed) => fixed.as_str(),
        None => "none",
    };
    let text = format!(in alloc;
        "{package}: {} {}, fixed in {fixed}",
        finding.feed.as_str(),
        finding.advisory.as_str()
    )?;
    Ok(text)
}

fn package_text(alloc: Global, package: &Package) -> Result<String, NoMemory> {
    let text = format!(in alloc;
        "{:?} {} {} {} of {} {} {} {}",
        package.kind,
        package.path.text(),
        package.name.as_str(),
        package.version.as_str(),
        package.source.as_str(),
        package.source_version.as_str(),
        package.arch.as_str(),
        package.ecosystem.as_str()
    )?;
    Ok(text)
}

/// A word and a number.
pub fn numbered(alloc: Global, word: &str, number: u64) -> Result<Text, NoMemory> {
    let text = format!(in alloc; "{word}{number}")?;
    Text::of(alloc, text.as_str())
}
