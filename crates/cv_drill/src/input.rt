ghost use Rattle.std.specs.Prelude.{◌≡◌, ◌≤◌, ◌<◌, ◌^◌, ◌++◌, ◌∷◌, [], length, IfOk, OnOk, string_bytes};
ghost use Rattle.cv_drill.specs.Lines.{json_text, lines_text};
ghost use Rattle.cv_drill.specs.Records.{update_data};
ghost use Rattle.cv_drill.specs.Script.{list_data, script, script_lines};
ghost use Rattle.serde_json.specs.View.{view};

use crate::image::{IMAGES, push_registrations, push_reports};
use crate::line::{end_round, push_value};
use crate::record::{RECORDS, Update, update_value};
use cv_base::{NoMemory, Seq};
use serde_json::{Value, json};
use std::alloc::Global;

/// The input of a seed: lines of requests, with an LF at the end of each. It has no more bytes than the service accepts in one line.
#[tactic(auto, using(crate::proofs::Sizes::script_short), unfolding(crate::specs::Script::script))]
pub fn script(alloc: Global, seed: u32) -> Result<Seq<u8>, NoMemory>
    ensures value { IfOk result (λ bytes. bytes ≡ script seed) }
    ensures short { IfOk result (λ bytes. length bytes ≤ 2 ^ 26) }
{
    let text = script_text(alloc, seed % 1000, IMAGES, RECORDS)?;
    Ok(Seq::of(text.into_bytes()))
}

/// The lines for these numbers of images and records.
#[tactic(auto, using(crate::proofs::Lists::lines_joined), unfolding(crate::specs::Script::script_lines))]
fn script_text(alloc: Global, offset: u32, images: u32, records: u32) -> Result<String, NoMemory>
    requires at_most_1000_images { images ≤ 1000 }
    requires offset { offset < 1000 }
    ensures { IfOk result (λ text. string_bytes text ≡ lines_text (script_lines offset images records)) }
{
    let mut text = String::new(alloc);
    push_registrations(alloc, &mut text, offset, images)?;
    end_round(&mut text)?;
    end_round(&mut text)?;
    push_update(alloc, &mut text, Update::First, records)?;
    end_round(&mut text)?;
    push_update(alloc, &mut text, Update::Second, records)?;
    end_round(&mut text)?;
    push_reports(alloc, &mut text, images)?;
    push_value(alloc, &mut text, &list_value(alloc)?)?;
    Ok(text)
}

/// Appends the request for an update of the feed.
#[tactic(auto, using(crate::proofs::RecordFloats::update_has_none))]
fn push_update(
    alloc: Global,
    text: &mut String,
    update: Update,
    records: u32,
) -> Result<(), NoMemory>
    ensures { OnOk result (string_bytes text.new ≡ string_bytes text.old ++ lines_text (json_text (update_data update records) ∷ [])) }
{
    let request = update_value(alloc, update, records)?;
    push_value(alloc, text, &request)
}

/// The request for the list of notifications.
fn list_value(alloc: Global) -> Result<Value, NoMemory>
    ensures { IfOk result (λ value. view value ≡ list_data) }
{
    Ok(json!(in alloc; {"do": "list", "lane": 0})?)
}
