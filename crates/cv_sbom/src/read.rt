ghost use Rattle.std.specs.Prelude.{◌≡◌, IfOk, Some, map};
ghost use Rattle.std.specs.Option.{ok_or, option_map};
ghost use Rattle.serde_json.specs.View.{items_of, view};
ghost use Rattle.cv_base.specs.Answer.{MatchesUnlessOutOfMemory};
ghost use Rattle.cv_match.specs.Findings.{package_cmp};
ghost use Rattle.cv_base.specs.InOrder.{in_order};
ghost use Rattle.cv_request.specs.Line.{json_of};
ghost use Rattle.cv_sbom.specs.Fault.{fault_of, refusing};
ghost use Rattle.cv_sbom.specs.ListRead.{components_or, image_in, is_cyclonedx, list_in, list_read, list_with};
ghost use Rattle.cv_sbom.specs.declared.error.ListFault.TheVariants.{BadJson};

use crate::components::{ComponentsRead, read_components};
use crate::error::{ListError, ListWhat};
use crate::list::ComponentList;
use crate::member::text_at;
use cv_base::{Digest, NoMemory, Package, Seq};
use cv_osv::{NewTexts, Node, Texts};
use serde_json::Value;
use std::alloc::Global;
use std::str;

/// Reads a line as a component list of CycloneDX, JSON. The first fault is the answer: the line as JSON, the object, `bomFormat`,
/// and `components`, which may be absent and then has no components. Components without the properties of this project's profile
/// are counted as skipped. Other members are ignored.
#[tactic(auto, unfolding(crate::specs::ListRead::list_read))]
pub fn read_list(alloc: Global, line: &[u8]) -> Result<ComponentList, ListError>
    ensures { MatchesUnlessOutOfMemory fault_of (λ list. list) result (list_read line.now) }
{
    let value = read_json(alloc, line)?;
    let mut texts = NewTexts;
    list_in(alloc, &mut texts, &value)
}

/// Reads a line as JSON.
#[tactic(auto, using(cv_seq::proofs::Utf8::text_found, cv_seq::proofs::Utf8::none_found))]
fn read_json(alloc: Global, line: &[u8]) -> Result<Value, ListError>
    ensures { MatchesUnlessOutOfMemory fault_of view result (ok_or (json_of line.now) BadJson) }
{
    let Ok(text) = str::from_utf8(line) else {
        return Err(ListError::BadJson);
    };
    match Value::from_str(alloc, text) {
        Ok(value) => Ok(value),
        Err(error) => {
            if error.is_memory() {
                Err(ListError::NoMemory)
            } else {
                Err(ListError::BadJson)
            }
        }
    }
}

/// Reads a value as a component list.
#[tactic(auto, unfolding(crate::specs::ListRead::list_in))]
fn list_in<V: Node<T>, T: Texts>(
    alloc: Global,
    texts: &mut T,
    value: &V,
) -> Result<ComponentList, ListError>
    ensures { MatchesUnlessOutOfMemory fault_of (λ list. list) result (refusing (list_in (V.data_of value.now))) }
{
    if !value.is_object() {
        return Err(ListError::BadList(ListWhat::NotObject));
    }
    if !is_cyclonedx(value) {
        return Err(ListError::BadList(ListWhat::BadFormat));
    }
    let components = components_or(value)?;
    let read = read_components(alloc, texts, components)?;
    Ok(list_with(alloc, image_in(value), read)?)
}

/// Whether the format is that of CycloneDX.
fn is_cyclonedx<V: Node<T>, T: Texts>(value: &V) -> bool
    ensures { result ≡ is_cyclonedx (V.data_of value.now) }
{
    match text_at(value, "bomFormat") {
        None => false,
        Some(format) => format == "CycloneDX",
    }
}

/// The components of a list, none if the member is absent.
fn components_or<V: Node<T>, T: Texts>(value: &V) -> Result<&[V], ListWhat>
    ensures { MatchesUnlessOutOfMemory (λ what. Some what) (λ items. items_of (map V.data_of items.now)) result
        (components_or (V.data_of value.now)) }
{
    match value.member("components") {
        None => Ok(&[]),
        Some(found) => match found.items() {
            None => Err(ListWhat::BadComponents),
            Some(items) => Ok(items),
        },
    }
}

/// The image that a list names, if it is a digest.
fn image_in<V: Node<T>, T: Texts>(value: &V) -> Option<Digest>
    ensures { result ≡ image_in (V.data_of value.now) }
{
    let metadata = value.member("metadata")?;
    let component = metadata.member("component")?;
    let name = text_at(component, "name")?;
    Digest::read(name.as_bytes()).ok()
}

/// The list of an image with these components.
fn list_with(
    alloc: Global,
    image: Option<Digest>,
    read: ComponentsRead,
) -> Result<ComponentList, NoMemory>
    ensures { IfOk result (λ list. list ≡ list_with image read.packages.items read.skipped) }
{
    Ok(ComponentList {
        image,
        packages: in_order(alloc, read.packages)?,
        skipped: read.skipped,
    })
}

/// Packages sorted by their fields, each once.
#[tactic(auto, using(crate::proofs::Ordered::ordered))]
fn in_order(alloc: Global, packages: Vec<Package>) -> Result<Seq<Package>, NoMemory>
    ensures { IfOk result (λ ordered. ordered ≡ in_order package_cmp packages.items) }
{
    let ordered = cv_base::in_order(alloc, packages)?;
    Ok(Seq::of(ordered))
}
