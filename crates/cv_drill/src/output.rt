ghost use Rattle.std.specs.Prelude.{◌≡◌, IfOk, map, string_bytes};
ghost use Rattle.serde_json.specs.View.{view};
ghost use Rattle.cv_drill.specs.Summary.{counts_text, line_of, sum_text, sums_text, summary, summary_of};

use crate::image::IMAGES;
use crate::report::last_reports;
use crate::totals::{Totals, totals_of};
use crate::transcript::objects;
use cv_base::{NoMemory, Text};
use serde_json::Value;
use sha2::{Digest, Sha256};
use std::alloc::Global;

/// The summary of a transcript of the script of a seed: a line of numbers and the SHA-256 of the last findings, without an LF.
/// The images are the same for each seed.
pub fn summary(alloc: Global, seed: u32, transcript: &[u8]) -> Result<Text, NoMemory>
    ensures { IfOk result (λ text. text ≡ summary seed transcript.now) }
{
    let _ = seed;
    let values = objects(alloc, transcript)?;
    summary_of(alloc, IMAGES, values.as_slice())
}

/// The summary of objects, with this number of images.
#[tactic(auto, unfolding(crate::specs::Summary::summary_of))]
fn summary_of(alloc: Global, images: u32, values: &[Value]) -> Result<Text, NoMemory>
    ensures { IfOk result (λ text. text ≡ summary_of images (map view values.now)) }
{
    let reports = last_reports(alloc, images, values)?;
    let hash = sum_text(alloc, reports.as_bytes())?;
    line_of(alloc, totals_of(values), hash.as_str())
}

/// The SHA-256 of a text, in hexadecimal.
#[tactic(auto, unfolding(crate::specs::Summary::sum_text))]
fn sum_text(alloc: Global, text: &[u8]) -> Result<String, NoMemory>
    ensures { IfOk result (λ hash. string_bytes hash ≡ sum_text text.now) }
{
    let bytes = Sha256::digest(text);
    Ok(hex::encode(alloc, bytes)?)
}

/// The line of a summary.
#[tactic(auto, unfolding(crate::specs::Summary::line_of))]
fn line_of(alloc: Global, totals: Totals, hash: &str) -> Result<Text, NoMemory>
    ensures { IfOk result (λ text. text ≡ line_of totals hash.now) }
{
    let counts = counts_text(alloc, totals)?;
    let sums = sums_text(alloc, totals)?;
    let line = format!(in alloc; "{counts}, {sums}, sha256 {hash}")?;
    Text::of(alloc, line.as_str())
}

/// How much was done.
#[tactic(auto, unfolding(crate::specs::Summary::counts_text))]
fn counts_text(alloc: Global, totals: Totals) -> Result<String, NoMemory>
    ensures { IfOk result (λ text. string_bytes text ≡ counts_text totals) }
{
    let images = totals.images;
    let layers = totals.layers;
    let generation = totals.generation;
    Ok(format!(in alloc; "images {images}, layers {layers}, generation {generation}")?)
}

/// How much was found.
#[tactic(auto, unfolding(crate::specs::Summary::sums_text))]
fn sums_text(alloc: Global, totals: Totals) -> Result<String, NoMemory>
    ensures { IfOk result (λ text. string_bytes text ≡ sums_text totals) }
{
    let notifications = totals.notifications;
    let rows = totals.rows;
    let findings = totals.findings;
    Ok(format!(in alloc; "notifications {notifications}, rows {rows}, findings {findings}")?)
}
