ghost use Rattle.std.specs.Prelude.{◌≡◌, ◌∷◌, ◌++◌, [], IfOk, Ok, OnOk, Some, length, map, true};
ghost use Rattle.std.specs.List.{AllByRecursion, list_all};
ghost use Rattle.hex.specs.Hex.{IsBytes};
ghost use Rattle.serde_json.specs.View.{view};
ghost use Rattle.cv_sbom.specs.ListRead.{list_read, list_with};
ghost use Rattle.cv_sbom.specs.Listable.{HasPath, is_below_top};
ghost use Rattle.cv_sbom.specs.ListText.{component_data, components_data, list_data, list_text, metadata_data, properties_data, property_data};

use cv_base::{Digest, NoMemory, Package, Text};
use cv_scan_output::{Object, json_of, kind_text};
use serde_json::Value;
use std::alloc::Global;

/// Writes the packages of an image as a component list, without an LF. If the packages stand below the top of a layer, the list
/// is read back as the image and the packages, sorted, each once, with no component skipped.
#[tactic(auto, unfolding(crate::specs::ListText::list_text))]
pub fn write_list(alloc: Global, image: &Digest, packages: &[Package]) -> Result<Text, NoMemory>
    ensures text { IfOk result (λ text. text ≡ list_text image.now packages.now) }
    ensures reads_back { IfOk result (λ _. list_all is_below_top packages.now ≡ true
        → list_read (list_text image.now packages.now) ≡ Ok (list_with (Some image.now) packages.now 0)) }
{
    let _bytes = digest_bytes(image);
    let value = list_value(alloc, image, packages)?;
    let json = json_of(alloc, &value)?;
    Text::of(alloc, json.as_str())
}

/// The bytes of a digest, of which there are 32.
fn digest_bytes(image: &Digest) -> [u8; 32]
    ensures count { length image.now ≡ 32 }
    ensures bytes { IsBytes image.now }
{
    image.bytes()
}

/// The JSON of a component list.
fn list_value(alloc: Global, image: &Digest, packages: &[Package]) -> Result<Value, NoMemory>
    ensures value { IfOk result (λ value. view value ≡ list_data image.now packages.now) }
    ensures paths { IfOk result (λ _. AllByRecursion HasPath packages.now) }
{
    Ok(
        Object::new(alloc)
            .text(alloc, "bomFormat", "CycloneDX")?
            .value(alloc, "components", components_value(alloc, packages)?)?
            .value(alloc, "metadata", metadata_value(alloc, image)?)?
            .text(alloc, "specVersion", "1.5")?
            .value(alloc, "version", Value::from(1u64))?
            .done(),
    )
}

/// What the list is about: the image, as a container.
fn metadata_value(alloc: Global, image: &Digest) -> Result<Value, NoMemory>
    ensures { IfOk result (λ value. view value ≡ metadata_data image.now) }
{
    let component = Object::new(alloc)
        .digest(alloc, "name", image)?
        .text(alloc, "type", "container")?
        .done();
    Ok(
        Object::new(alloc)
            .value(alloc, "component", component)?
            .done(),
    )
}

/// The components that packages are, in their order.
fn components_value(alloc: Global, packages: &[Package]) -> Result<Value, NoMemory>
    ensures value { IfOk result (λ value. view value ≡ components_data packages.now) }
    ensures paths { IfOk result (λ _. AllByRecursion HasPath packages.now) }
{
    let mut items = Vec::new(alloc);
    for package in packages {
        items.push(component_value(alloc, package)?)?;
    }
    Ok(Value::Array(items))
}

/// The component that a package is.
fn component_value(alloc: Global, package: &Package) -> Result<Value, NoMemory>
    ensures value { IfOk result (λ value. view value ≡ component_data «package».now) }
    ensures path { IfOk result (λ _. HasPath «package».now) }
{
    Ok(
        Object::new(alloc)
            .text(alloc, "name", package.name.as_str())?
            .value(alloc, "properties", properties_value(alloc, package)?)?
            .text(alloc, "type", "library")?
            .text(alloc, "version", package.version.as_str())?
            .done(),
    )
}

/// The properties of this project's profile.
fn properties_value(alloc: Global, package: &Package) -> Result<Value, NoMemory>
    ensures value { IfOk result (λ value. view value ≡ properties_data «package».now) }
    ensures path { IfOk result (λ _. HasPath «package».now) }
{
    let ecosystem = package.ecosystem.as_str();
    let source_version = package.source_version.as_str();
    let mut items = Vec::new(alloc);
    push_property(alloc, &mut items, "cvwatch:arch", package.arch.as_str())?;
    push_property(alloc, &mut items, "cvwatch:ecosystem", ecosystem)?;
    push_property(alloc, &mut items, "cvwatch:kind", kind_text(package.kind))?;
    push_property(alloc, &mut items, "cvwatch:path", package.path.text())?;
    push_property(alloc, &mut items, "cvwatch:source", package.source.as_str())?;
    push_property(alloc, &mut items, "cvwatch:source_version", source_version)?;
    Ok(Value::Array(items))
}

/// Appends a property.
fn push_property(
    alloc: Global,
    items: &mut Vec<Value>,
    name: &str,
    value: &str,
) -> Result<(), NoMemory>
    ensures { OnOk result (map view items.new.items ≡ map view items.old.items ++ property_data name.now value.now ∷ []) }
{
    let property = Object::new(alloc)
        .text(alloc, "name", name)?
        .text(alloc, "value", value)?
        .done();
    Ok(items.push(property)?)
}
