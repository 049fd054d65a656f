ghost use Rattle.std.specs.Prelude.{◌≡◌, IfOk, string_bytes};
ghost use Rattle.serde_json.specs.View.{view};
ghost use Rattle.cv_scan_output.specs.Bad.{bad_data, bad_file_data, bad_image_data, bad_image_text, bad_seal_data, bad_tree_data, entry_data, no_layer_data, too_large_data, too_many_data};

use crate::line::line_of;
use crate::names::what_name;
use cv_base::{Digest, NoMemory, RelPath, What};
use cv_overlay::{ImageFault, TreeFault};
use serde_json::{Value, json};
use std::alloc::Global;

/// The line of an image that has no packages, with the reason: `{"bad":{..},"image":"..","reply":"bad_image"}`.
#[tactic(auto, unfolding(crate::specs::Bad::bad_image_text))]
pub fn bad_image_line(alloc: Global, image: &Digest, bad: &ImageFault) -> Result<String, NoMemory>
    ensures { IfOk result (λ line. string_bytes line ≡ bad_image_text image.now bad.now) }
{
    let value = bad_image_value(alloc, image, bad)?;
    line_of(alloc, &value)
}

fn bad_image_value(alloc: Global, image: &Digest, bad: &ImageFault) -> Result<Value, NoMemory>
    ensures { IfOk result (λ value. view value ≡ bad_image_data image.now bad.now) }
{
    let image = image.text(alloc)?;
    let bad = bad_value(alloc, bad)?;
    Ok(json!(in alloc; {"bad": bad, "image": image.as_str(), "reply": "bad_image"})?)
}

/// The JSON of why an image has no packages: a cause, the layer or the path, and what is wrong there.
/// A bad seal has the seal that is stated and the one that was found.
pub fn bad_value(alloc: Global, bad: &ImageFault) -> Result<Value, NoMemory>
    ensures { IfOk result (λ value. view value ≡ bad_data bad.now) }
{
    match bad {
        ImageFault::NoLayer(layer) => no_layer_value(alloc, *layer),
        ImageFault::BadTree(layer, fault) => bad_tree_value(alloc, *layer, *fault),
        ImageFault::BadSeal {
            layer,
            stated,
            found,
        } => bad_seal_value(alloc, *layer, stated, found),
        ImageFault::BadFile { path, line, what } => bad_file_value(alloc, path, *line, *what),
        ImageFault::TooLarge { path } => too_large_value(alloc, path),
    }
}

fn no_layer_value(alloc: Global, layer: u32) -> Result<Value, NoMemory>
    ensures { IfOk result (λ value. view value ≡ no_layer_data layer) }
{
    Ok(json!(in alloc; {"cause": "no_layer", "layer": layer})?)
}

fn bad_tree_value(alloc: Global, layer: u32, fault: TreeFault) -> Result<Value, NoMemory>
    ensures { IfOk result (λ value. view value ≡ bad_tree_data layer fault) }
{
    match fault {
        TreeFault::Unsorted(entry) => entry_value(alloc, layer, entry, "unsorted"),
        TreeFault::NoParent(entry) => entry_value(alloc, layer, entry, "no_parent"),
        TreeFault::BadMark(entry) => entry_value(alloc, layer, entry, "bad_mark"),
        TreeFault::TooMany => too_many_value(alloc, layer),
    }
}

fn entry_value(alloc: Global, layer: u32, entry: u32, what: &str) -> Result<Value, NoMemory>
    ensures { IfOk result (λ value. view value ≡ entry_data layer entry what.now) }
{
    Ok(json!(in alloc; {"cause": "bad_tree", "entry": entry, "layer": layer, "what": what})?)
}

fn too_many_value(alloc: Global, layer: u32) -> Result<Value, NoMemory>
    ensures { IfOk result (λ value. view value ≡ too_many_data layer) }
{
    Ok(json!(in alloc; {"cause": "bad_tree", "layer": layer, "what": "too_many"})?)
}

fn bad_seal_value(
    alloc: Global,
    layer: u32,
    stated: &Digest,
    found: &Digest,
) -> Result<Value, NoMemory>
    ensures { IfOk result (λ value. view value ≡ bad_seal_data layer stated.now found.now) }
{
    let found = found.text(alloc)?;
    let stated = stated.text(alloc)?;
    Ok(
        json!(in alloc; {"cause": "bad_seal", "found": found.as_str(), "layer": layer, "stated": stated.as_str()})?,
    )
}

fn bad_file_value(alloc: Global, path: &RelPath, line: u64, what: What) -> Result<Value, NoMemory>
    ensures { IfOk result (λ value. view value ≡ bad_file_data path.now line what) }
{
    let what = what_name(what);
    Ok(json!(in alloc; {"cause": "bad_file", "line": line, "path": path.text(), "what": what})?)
}

fn too_large_value(alloc: Global, path: &RelPath) -> Result<Value, NoMemory>
    ensures { IfOk result (λ value. view value ≡ too_large_data path.now) }
{
    Ok(json!(in alloc; {"cause": "too_large", "path": path.text()})?)
}
