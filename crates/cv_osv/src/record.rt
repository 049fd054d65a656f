ghost use Rattle.std.specs.Prelude.{◌≡◌, take};
ghost use Rattle.std.specs.Option.{option_map};
ghost use Rattle.cv_osv.specs.RecordAnswer.{Answers, Reads};
ghost use Rattle.cv_osv.specs.Faults.{fault_in, record_faults};
ghost use Rattle.cv_osv.specs.Record.{advisory_of, full_or, optional_package_of};
ghost use Rattle.serde_json.specs.View.{view};

use crate::json::{items_or, member_at, object_or, optional_text_or, text_or};
use crate::node::{NewTexts, Node, Texts};
use crate::part::{Part, PartRead, read_each};
use crate::record_error::{AdvisoryError, RecordWhat};
use cv_base::{Advisory, Affected, PackageName, Text};
use serde_json::Value;
use std::alloc::Global;

/// A record, or what is wrong with it.
pub type RecordRead = Result<Advisory, RecordWhat>;

/// Reads a record of the OSV schema 1.6. A member with the value null counts as absent, and unknown members are
/// ignored. The first fault is the answer: the record's own members come first, in the order of `RecordWhat`, and then
/// the entries one by one, each with its package, its ranges one by one, and its versions.
#[tactic(auto, using(crate::proofs::FirstFault::record_first))]
pub fn read_advisory(alloc: Global, value: &Value) -> Result<Advisory, AdvisoryError>
    ensures value { Reads (λ advisory. advisory) result (advisory_of (view value.now)) }
    ensures first_fault { fault_in (advisory_of (view value.now)) ≡ take 1 (record_faults (view value.now)) }
{
    let mut texts = NewTexts;
    read_node(alloc, &mut texts, value)
}

/// Reads a record as `read_advisory` does, from a value of any kind. `texts` makes the texts of its entries, and no others.
#[tactic(auto, unfolding(crate::specs::Record::advisory_of))]
pub fn read_node<V: Node<T>, T: Texts>(
    alloc: Global,
    texts: &mut T,
    value: &V,
) -> Result<Advisory, AdvisoryError>
    ensures { Reads (λ advisory. advisory) result (advisory_of (V.data_of value.now)) }
{
    object_or(value, RecordWhat::NotObject)?;
    let name = text_or(member_at(value, "id"), RecordWhat::NoId)?;
    let id = full_or(name, RecordWhat::NoId)?;
    let modified = text_or(member_at(value, "modified"), RecordWhat::NoModified)?;
    let withdrawn = optional_text_or(member_at(value, "withdrawn"), RecordWhat::BadWithdrawn)?;
    let entries = items_or(member_at(value, "affected"), RecordWhat::BadAffected)?;
    let affected = read_each(alloc, texts, entries)?;
    Ok(Advisory {
        id: Text::of(alloc, id)?,
        modified: Text::of(alloc, modified)?,
        withdrawn: withdrawn.is_some(),
        affected,
    })
}

/// The text, if it is not empty.
fn full_or(text: &str, bad: RecordWhat) -> Result<&str, RecordWhat>
    ensures { Answers (λ text. text.now) result (full_or bad text.now) }
{
    match text.as_bytes() {
        [] => Err(bad),
        _ => Ok(text),
    }
}

impl Part for Affected {
    ghost use Rattle.cv_osv.specs.Record.{entry_of};

    ghost part_of = { entry_of };

    #[tactic(auto, unfolding(crate::specs::Record::entry_of))]
    fn read<V: Node<T>, T: Texts>(alloc: Global, texts: &mut T, value: &V) -> PartRead<Affected> {
        object_or(value, RecordWhat::BadEntry)?;
        let package = read_package(alloc, texts, member_at(value, "package"))?;
        let ranges = items_or(member_at(value, "ranges"), RecordWhat::BadRange)?;
        let ranges = read_each(alloc, texts, ranges)?;
        let versions = items_or(member_at(value, "versions"), RecordWhat::BadVersions)?;
        let versions = read_each(alloc, texts, versions)?;
        Ok(Affected {
            package,
            ranges,
            versions,
        })
    }
}

/// The package of an entry, which may be absent.
#[tactic(auto, unfolding(crate::specs::Record::package_of))]
fn read_package<V: Node<T>, T: Texts>(
    alloc: Global,
    texts: &mut T,
    found: Option<&V>,
) -> Result<Option<PackageName>, AdvisoryError>
    ensures { Reads (λ name. name) result (optional_package_of (option_map (λ v. V.data_of v.now) found.entry)) }
{
    let Some(value) = found else {
        return Ok(None);
    };
    let ecosystem = text_or(member_at(value, "ecosystem"), RecordWhat::BadPackage)?;
    let name = text_or(member_at(value, "name"), RecordWhat::BadPackage)?;
    Ok(Some(PackageName {
        ecosystem: texts.text(alloc, ecosystem)?,
        name: texts.text(alloc, name)?,
    }))
}

/// An item of `versions`.
impl Part for Text {
    ghost use Rattle.cv_osv.specs.Record.{version_of};

    ghost part_of = { version_of };

    fn read<V: Node<T>, T: Texts>(alloc: Global, texts: &mut T, value: &V) -> PartRead<Text> {
        let version = text_or(Some(value), RecordWhat::BadVersions)?;
        Ok(texts.text(alloc, version)?)
    }
}
