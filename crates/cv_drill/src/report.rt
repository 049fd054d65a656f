ghost use Rattle.std.specs.Prelude.{◌≡◌, ◌++◌, false, IfOk, IfSome, List, OnOk, ℕ, filter_map, map, option_map, option_to_list, string_bytes};
ghost use Rattle.std.specs.Option.{option_or};
ghost use Rattle.std.specs.BTreeMap.{get};
ghost use Rattle.std.specs.Cmp.Lexicographic.{slice_cmp};
ghost use Rattle.std.specs.Ordering.{nat_cmp};
ghost use Rattle.serde_json.specs.View.{view};
ghost use Rattle.serde_json.specs.Written.{has_float};
ghost use Rattle.cv_base.specs.Digest.{digest_text};
ghost use Rattle.cv_drill.specs.Images.{image};
ghost use Rattle.cv_drill.specs.Lines.{json_text, lines_text, numbers};
ghost use Rattle.cv_drill.specs.Summary.{good_findings, image_report, is_good_report, last_report, last_reports, numberless_list, under};

use crate::digest::Role;
use crate::line::json_text;
use crate::transcript::{has_number, says, text_at};
use cv_base::{NoMemory, Text};
use serde_json::Value;
use std::alloc::Global;
use std::collections::BTreeMap;

/// The findings of the last good report on each image below a number, a line each.
pub(crate) fn last_reports(alloc: Global, images: u32, values: &[Value]) -> Result<String, NoMemory>
    ensures { IfOk result (λ text. string_bytes text ≡ last_reports images (map view values.now)) }
{
    let reports = reports_by_image(alloc, values)?;
    lines_by_image(alloc, images, &reports)
}

/// The findings of the last good report on each image, under the text of its digest.
#[tactic(auto, using(crate::proofs::Reports::last_step))]
fn reports_by_image(alloc: Global, values: &[Value]) -> Result<BTreeMap<Text, Text>, NoMemory>
    ensures { IfOk result (λ reports. (hash : List ℕ) → get (slice_cmp nat_cmp) reports hash ≡ last_report (map view values.now) hash) }
{
    let mut reports = BTreeMap::new(alloc);
    for value in values {
        let report = image_report(alloc, value)?;
        insert(&mut reports, report)?;
    }
    Ok(reports)
}

/// Replaces what a table has of an image by its report, if there is one.
#[tactic(auto, using(crate::proofs::Reports::inserted))]
fn insert(reports: &mut BTreeMap<Text, Text>, report: Option<(Text, Text)>) -> Result<(), NoMemory>
    ensures { (hash : List ℕ) → OnOk result (get (slice_cmp nat_cmp) reports.new hash ≡ option_or (under hash report) (get (slice_cmp nat_cmp) reports.old hash)) }
{
    let Some((image, findings)) = report else {
        return Ok(());
    };
    reports.insert(image, findings)?;
    Ok(())
}

/// What a table has of each image below a number, a line each.
fn lines_by_image(
    alloc: Global,
    images: u32,
    reports: &BTreeMap<Text, Text>,
) -> Result<String, NoMemory>
    ensures { IfOk result (λ text. string_bytes text ≡ lines_text (filter_map (λ i. get (slice_cmp nat_cmp) reports.now (digest_text (image i))) (numbers images))) }
{
    let mut text = String::new(alloc);
    for index in 0..images {
        let image = Role::Image.digest(index).text(alloc)?;
        push_found(&mut text, reports.get(&image))?;
    }
    Ok(text)
}

/// Appends a line, if there is one.
fn push_found(text: &mut String, line: Option<&Text>) -> Result<(), NoMemory>
    ensures { OnOk result (string_bytes text.new ≡ string_bytes text.old ++ lines_text (option_to_list (option_map (λ found. found.now) line.entry))) }
{
    if let Some(line) = line {
        text.push_str(line.as_str())?;
        text.push('\n')?;
    }
    Ok(())
}

/// The image of a good report, and its findings as JSON.
fn image_report(alloc: Global, value: &Value) -> Result<Option<(Text, Text)>, NoMemory>
    ensures { IfOk result (λ report. report ≡ image_report (view value.now)) }
{
    let Some(image) = text_at(value, "image") else {
        return Ok(None);
    };
    let Some(findings) = good_findings(value) else {
        return Ok(None);
    };
    let json = json_text(alloc, findings)?;
    Ok(Some((Text::of(alloc, image)?, Text::of(alloc, json.as_str())?)))
}

/// The findings of a good report.
pub(crate) fn good_findings(value: &Value) -> Option<&Value>
    ensures value { option_map (λ found. view found.now) result ≡ good_findings (view value.now) }
    ensures plain { IfSome result (λ found. has_float (view found.now) ≡ false) }
{
    if !is_good_report(value) {
        return None;
    }
    let found = value.get("findings")?;
    numberless_list(found)
}

fn is_good_report(value: &Value) -> bool
    ensures { result ≡ is_good_report (view value.now) }
{
    says(value, "read", "report") && says(value, "reply", "good")
}

/// The value, if it is a list in which no number stands.
#[tactic(auto, using(crate::proofs::Numbers::no_float))]
fn numberless_list(value: &Value) -> Option<&Value>
    ensures value { option_map (λ found. view found.now) result ≡ numberless_list (view value.now) }
    ensures plain { IfSome result (λ found. has_float (view found.now) ≡ false) }
{
    if value.is_array() && !has_number(value) {
        Some(value)
    } else {
        None
    }
}
