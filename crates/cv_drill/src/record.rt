ghost use Rattle.std.specs.Prelude.{◌≡◌, ◌≤◌, ◌<◌, IfOk, map, string_bytes, codes};
ghost use Rattle.serde_json.specs.Data.{array};
ghost use Rattle.serde_json.specs.View.{items_of, view};
ghost use Rattle.cv_drill.specs.Records.{affected_data, debian_data, entry_data, fixed_data, introduced_data, is_kept, last_affected_data, minor, name, npm_data, package_data, range_data, record_data, record_id, records, update_data};

use cv_base::NoMemory;
use serde_json::{Value, json};
use std::alloc::Global;

/// How many records the feed has.
pub const RECORDS: u32 = 2000;

/// An update of the feed. The second one leaves out records and changes others.
#[derive(Clone, Copy, Debug, PartialEq, Eq)]
pub enum Update {
    First,
    Second,
}

impl Update {
    /// Whether it has a record.
    fn has(self, number: u32) -> bool
        ensures { result ≡ is_kept self number }
    {
        match self {
            Update::First => true,
            Update::Second => number % 3 != 0,
        }
    }

    /// The minor version in a record.
    fn minor(self, number: u32) -> u32
        ensures { result ≡ minor self number }
    {
        let minor = number / 40;
        match self {
            Update::Second if number % 3 == 1 => minor + 1,
            _ => minor,
        }
    }
}

/// The request that updates the feed, of this number of records.
pub fn update_value(alloc: Global, update: Update, count: u32) -> Result<Value, NoMemory>
    ensures { IfOk result (λ value. view value ≡ update_data update count) }
{
    let records = records_value(alloc, update, count)?;
    Ok(json!(in alloc; {"advisories": records, "do": "update", "feed": "gen", "lane": 0})?)
}

/// The records of an update.
fn records_value(alloc: Global, update: Update, count: u32) -> Result<Value, NoMemory>
    ensures { IfOk result (λ value. view value ≡ array (items_of (records update count))) }
{
    let mut items = Vec::new(alloc);
    for number in 0..count {
        if update.has(number) {
            items.push(record_value(alloc, update, number)?)?;
        }
    }
    Ok(Value::Array(items))
}

#[tactic(auto, unfolding(crate::specs::Records::record_data))]
fn record_value(alloc: Global, update: Update, number: u32) -> Result<Value, NoMemory>
    ensures { IfOk result (λ value. view value ≡ record_data update number) }
{
    let id = record_id(alloc, number)?;
    let affected = affected_value(alloc, update.minor(number), number)?;
    Ok(
        json!(in alloc; {"affected": [affected], "id": id.as_str(), "modified": "2024-01-01T00:00:00Z"})?,
    )
}

/// What a record is about.
fn affected_value(alloc: Global, minor: u32, number: u32) -> Result<Value, NoMemory>
    ensures { IfOk result (λ value. view value ≡ affected_data minor number) }
{
    if number % 2 == 0 {
        debian_value(alloc, minor, number)
    } else {
        npm_value(alloc, minor, number)
    }
}

/// A package of Debian, and the version that has the fix.
#[tactic(auto, unfolding(crate::specs::Records::debian_data))]
fn debian_value(alloc: Global, minor: u32, number: u32) -> Result<Value, NoMemory>
    ensures { IfOk result (λ value. view value ≡ debian_data minor number) }
{
    let name = name(alloc, "p", number)?;
    let range = range_value(alloc, "ECOSYSTEM", fixed_value(alloc, minor)?)?;
    entry_value(alloc, "Debian:12", name.as_str(), range)
}

/// A module of npm, and its last version that is affected.
#[tactic(auto, unfolding(crate::specs::Records::npm_data))]
fn npm_value(alloc: Global, minor: u32, number: u32) -> Result<Value, NoMemory>
    ensures { IfOk result (λ value. view value ≡ npm_data minor number) }
{
    let name = name(alloc, "n", number)?;
    let range = range_value(alloc, "SEMVER", last_affected_value(alloc, minor)?)?;
    entry_value(alloc, "npm", name.as_str(), range)
}

/// A package with a range.
#[tactic(auto, unfolding(crate::specs::Records::entry_data))]
fn entry_value(alloc: Global, ecosystem: &str, name: &str, range: Value) -> Result<Value, NoMemory>
    ensures { IfOk result (λ value. view value ≡ entry_data ecosystem.now name.now (view range)) }
{
    let package = package_value(alloc, ecosystem, name)?;
    Ok(json!(in alloc; {"package": package, "ranges": [range]})?)
}

/// A package by its ecosystem and its name.
#[tactic(auto, unfolding(crate::specs::Records::package_data))]
fn package_value(alloc: Global, ecosystem: &str, name: &str) -> Result<Value, NoMemory>
    ensures { IfOk result (λ value. view value ≡ package_data ecosystem.now name.now) }
{
    Ok(json!(in alloc; {"ecosystem": ecosystem, "name": name})?)
}

/// A range of a type, from the first version on to an event.
#[tactic(auto, unfolding(crate::specs::Records::range_data))]
fn range_value(alloc: Global, kind: &str, last: Value) -> Result<Value, NoMemory>
    ensures { IfOk result (λ value. view value ≡ range_data kind.now (view last)) }
{
    let first = introduced_value(alloc)?;
    Ok(json!(in alloc; {"events": [first, last], "type": kind})?)
}

/// The event of the first version.
#[tactic(auto, unfolding(crate::specs::Records::introduced_data))]
fn introduced_value(alloc: Global) -> Result<Value, NoMemory>
    ensures { IfOk result (λ value. view value ≡ introduced_data) }
{
    Ok(json!(in alloc; {"introduced": "0"})?)
}

/// The event of the version that has the fix.
#[tactic(auto, unfolding(crate::specs::Records::fixed_data))]
fn fixed_value(alloc: Global, minor: u32) -> Result<Value, NoMemory>
    ensures { IfOk result (λ value. view value ≡ fixed_data minor) }
{
    let version = format!(in alloc; "1.{minor}-1")?;
    Ok(json!(in alloc; {"fixed": version.as_str()})?)
}

/// The event of the last version that is affected.
#[tactic(auto, unfolding(crate::specs::Records::last_affected_data))]
fn last_affected_value(alloc: Global, minor: u32) -> Result<Value, NoMemory>
    ensures { IfOk result (λ value. view value ≡ last_affected_data minor) }
{
    let version = format!(in alloc; "1.{minor}.0")?;
    Ok(json!(in alloc; {"last_affected": version.as_str()})?)
}

/// A letter and the last two digits of a number.
fn name(alloc: Global, letter: &str, number: u32) -> Result<String, NoMemory>
    ensures { IfOk result (λ text. string_bytes text ≡ name letter.now number) }
{
    let tens = number / 10 % 10;
    let ones = number % 10;
    Ok(format!(in alloc; "{letter}{tens}{ones}")?)
}

/// The name of a record, with four digits.
fn record_id(alloc: Global, number: u32) -> Result<String, NoMemory>
    ensures { IfOk result (λ text. string_bytes text ≡ record_id number) }
{
    let thousands = number / 1000;
    let hundreds = number / 100 % 10;
    let tens = number / 10 % 10;
    let ones = number % 10;
    Ok(format!(in alloc; "GEN-{thousands}{hundreds}{tens}{ones}")?)
}
