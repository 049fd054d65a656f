ghost use Rattle.std.specs.Prelude.{◌≡◌, ◌≤◌, ◌<◌, ◌++◌, IfOk, OnOk, map, string_bytes};
ghost use Rattle.serde_json.specs.Data.{array};
ghost use Rattle.serde_json.specs.View.{items_of, view};
ghost use Rattle.cv_drill.specs.Images.{image, layer_data, layers, manifest_data, register_data, report_data};
ghost use Rattle.cv_drill.specs.Lines.{lines_text};
ghost use Rattle.cv_drill.specs.Script.{register_lines, report_lines};

use crate::digest::Role;
use crate::line::push_value;
use cv_base::{Digest, NoMemory};
use serde_json::{Value, json};
use std::alloc::Global;

/// How many images there are.
pub const IMAGES: u32 = 64;

const LANES: u32 = 8;

/// Appends the requests that register the images below a number.
#[tactic(auto, using(crate::proofs::Floats::register_has_none))]
pub(crate) fn push_registrations(
    alloc: Global,
    text: &mut String,
    offset: u32,
    images: u32,
) -> Result<(), NoMemory>
    requires at_most_1000_images { images ≤ 1000 }
    requires offset { offset < 1000 }
    ensures { OnOk result (string_bytes text.new ≡ string_bytes text.old ++ lines_text (register_lines offset images)) }
{
    for index in 0..images {
        let request = register_value(alloc, offset, index)?;
        push_value(alloc, text, &request)?;
    }
    Ok(())
}

/// Appends the requests for reports on the images below a number.
pub(crate) fn push_reports(alloc: Global, text: &mut String, images: u32) -> Result<(), NoMemory>
    ensures { OnOk result (string_bytes text.new ≡ string_bytes text.old ++ lines_text (report_lines images)) }
{
    for index in 0..images {
        let request = report_value(alloc, index)?;
        push_value(alloc, text, &request)?;
    }
    Ok(())
}

/// The request that registers an image.
fn register_value(alloc: Global, offset: u32, index: u32) -> Result<Value, NoMemory>
    requires below_1000 { index < 1000 }
    requires offset { offset < 1000 }
    ensures { IfOk result (λ value. view value ≡ register_data offset index) }
{
    let manifest = manifest_value(alloc, offset, index)?;
    Ok(json!(in alloc; {"do": "register", "lane": index % LANES, "manifest": manifest})?)
}

/// The manifest of an image.
fn manifest_value(alloc: Global, offset: u32, index: u32) -> Result<Value, NoMemory>
    requires below_1000 { index < 1000 }
    requires offset { offset < 1000 }
    ensures { IfOk result (λ value. view value ≡ manifest_data (image index) (layers offset index)) }
{
    let layers = layers_value(alloc, layers(alloc, offset, index)?.as_slice())?;
    let hash = Role::Image.digest(index).text(alloc)?;
    Ok(json!(in alloc; {"hash": hash.as_str(), "layers": layers})?)
}

/// The request for a report on an image.
fn report_value(alloc: Global, index: u32) -> Result<Value, NoMemory>
    ensures { IfOk result (λ value. view value ≡ report_data index) }
{
    let hash = Role::Image.digest(index).text(alloc)?;
    Ok(json!(in alloc; {"do": "report", "image": hash.as_str(), "lane": index % LANES})?)
}

/// The layers of an image, the lowest first.
fn layers(alloc: Global, offset: u32, index: u32) -> Result<Vec<Digest>, NoMemory>
    requires below_1000 { index < 1000 }
    requires offset { offset < 1000 }
    ensures { IfOk result (λ found. found.items ≡ layers offset index) }
{
    let mut found = Vec::new(alloc);
    found.push(Role::System.digest(offset + index % 50))?;
    found.push(Role::Database.digest(offset + (3 * index + 1) % 50))?;
    found.push(Role::Modules.digest(offset + (7 * index + 2) % 50))?;
    if index % 2 == 1 {
        found.push(Role::Opaque.digest(offset + index % 50))?;
        found.push(Role::Modules.digest(offset + (index + 5) % 50))?;
    }
    Ok(found)
}

/// The JSON of a list of layers.
fn layers_value(alloc: Global, layers: &[Digest]) -> Result<Value, NoMemory>
    ensures { IfOk result (λ value. view value ≡ array (items_of (map layer_data layers.now))) }
{
    let mut items = Vec::new(alloc);
    for layer in layers {
        items.push(layer_value(alloc, layer)?)?;
    }
    Ok(Value::Array(items))
}

fn layer_value(alloc: Global, layer: &Digest) -> Result<Value, NoMemory>
    ensures { IfOk result (λ value. view value ≡ layer_data layer.now) }
{
    let hash = layer.text(alloc)?;
    Ok(json!(in alloc; {"hash": hash.as_str()})?)
}
