ghost use Rattle.std.specs.Prelude.{◌≡◌, ◌+◌, ◌*◌, ◌%◌, ◌<◌, ◌==◌, ◌++◌, [], ◌∷◌, ℕ, List, Option, Some, Ok, map, decimal, string_bytes, IfOk, OnOk};
ghost use Rattle.std.specs.List.{list_all};
ghost use Rattle.std.specs.Option.{option_map};
ghost use Rattle.cv_base.specs.Path.{components, path_of};
ghost use Rattle.cv_desk_drill.specs.Generated.{directory, file, generated, manifest, manifest_text, name_number, number_of, npm_package, opaque_tree, packages, package_text, package_tree, paragraph, paragraphs, role_tree, status_file, system_tree, thirty, twenty, two_digits, version_number};
ghost use Rattle.cv_desk.specs.Stored.{Stored, file_read, item_at, item_in, listed};
ghost use Rattle.cv_desk_drill.specs.code.GeneratedEntry.{item_of_text, made};

use cv_base::{Digest, Kind, ListEntry, NoMemory, PathError, RelPath, Seq};
use cv_desk::{Desk, DeskFault, FileRead, ReadResult};
use std::alloc::Global;

static TEN: [u8; 10] = [0, 1, 2, 3, 4, 5, 6, 7, 8, 9];

static TWENTY: [u8; 20] = [
    0, 1, 2, 3, 4, 5, 6, 7, 8, 9, 10, 11, 12, 13, 14, 15, 16, 17, 18, 19,
];

static THIRTY: [u8; 30] = [
    0, 1, 2, 3, 4, 5, 6, 7, 8, 9, 10, 11, 12, 13, 14, 15, 16, 17, 18, 19, 20, 21, 22, 23, 24, 25,
    26, 27, 28, 29,
];

/// A desk whose digests spell their layers, for drills. It never fails. A digest's byte 0 is a role from 0 to 3, bytes 1 to 4
/// are a number, the most significant byte first, and the other bytes are 0. Every other digest has no layer.
#[derive(Drop)]
pub struct GenDesk {
    listings: u64,
    reads: u64,
}

impl GenDesk {
    /// A desk over all generated layers.
    pub fn new() -> GenDesk
        ensures listings { ⟦<GenDesk as Desk>⟧.listings result ≡ 0 }
        ensures reads { ⟦<GenDesk as Desk>⟧.reads result ≡ 0 }
    {
        GenDesk {
            listings: 0,
            reads: 0,
        }
    }
}

impl Desk for GenDesk {
    ghost use Rattle.std.specs.Prelude.{Some};
    ghost use Rattle.cv_desk_drill.specs.Generated.{generated};
    ghost use Rattle.cv_desk_drill.specs.code.GeneratedDistinct.{generated_distinct};
    ghost use Rattle.cv_desk_drill.specs.code.GeneratedPaths.{generated_paths};

    ghost tree = { λ d. Some (generated d) };

    ghost faults = { λ s. 0 };

    ghost listings = { λ s. s.listings };

    ghost reads = { λ s. s.reads };

    ghost distinct = { generated_distinct };

    ghost paths = { generated_paths };

    fn list(&mut self, alloc: Global, layer: &Digest) -> Result<Option<Seq<ListEntry>>, DeskFault> {
        self.listings += 1;
        Ok(listing_of(alloc, layer_of(alloc, layer)?)?)
    }

    fn read(&mut self, alloc: Global, layer: &Digest, path: &RelPath, limit: u32) -> ReadResult {
        self.reads = self.reads.saturating_add(1);
        Ok(read_of(alloc, layer_of(alloc, layer)?, path, limit)?)
    }
}

/// The listing of a layer of these entries, if there is one.
pub(crate) fn listing_of(
    alloc: Global,
    layer: Option<Vec<GenEntry>>,
) -> Result<Option<Seq<ListEntry>>, NoMemory>
    ensures { IfOk result (λ found. found ≡ option_map (map listed) (option_map (λ entries. map made entries.items) layer)) }
{
    match layer {
        None => Ok(None),
        Some(entries) => Ok(Some(Seq::of(listed(alloc, entries)?))),
    }
}

/// What reading a path of a layer of these entries gives, if there is one.
pub(crate) fn read_of(
    alloc: Global,
    layer: Option<Vec<GenEntry>>,
    path: &RelPath,
    limit: u32,
) -> Result<FileRead, NoMemory>
    ensures { IfOk result (λ found. found ≡ file_read (item_in (option_map (λ entries. map made entries.items) layer) path.now) limit) }
{
    match layer {
        None => Ok(FileRead::NotFile),
        Some(entries) => file_read(alloc, entries.as_slice(), path, limit),
    }
}

/// An entry of a generated layer. A file has a text, and a directory has none.
#[derive(Drop)]
pub(crate) struct GenEntry {
    path: RelPath,
    text: Option<String>,
}

/// The entries of the layer that a digest spells, if it spells one.
fn layer_of(alloc: Global, layer: &Digest) -> Result<Option<Vec<GenEntry>>, NoMemory>
    ensures { IfOk result (λ found. option_map (λ entries. map made entries.items) found ≡ generated layer.now) }
{
    let bytes = layer.bytes();
    let (_, zeros) = bytes.as_slice().split_at(5);
    if !are_zeros(zeros) {
        return Ok(None);
    }
    role_layer(
        alloc,
        bytes[0],
        number_of(bytes[1], bytes[2], bytes[3], bytes[4]),
    )
}

pub(crate) fn are_zeros(bytes: &[u8]) -> bool
    ensures { result ≡ list_all (λ byte. byte == 0) bytes.now }
{
    bytes.iter().all(|&byte| byte == 0)
}

pub(crate) fn number_of(a: u8, b: u8, c: u8, d: u8) -> u32
    ensures { result ≡ number_of a b c d }
{
    ((u32::from(a) * 256 + u32::from(b)) * 256 + u32::from(c)) * 256 + u32::from(d)
}

fn role_layer(alloc: Global, role: u8, s: u32) -> Result<Option<Vec<GenEntry>>, NoMemory>
    ensures { IfOk result (λ found. option_map (λ entries. map made entries.items) found ≡ role_tree role s) }
{
    match role {
        0 => Ok(Some(system_layer(alloc, s)?)),
        1 => Ok(Some(status_layer(alloc, s)?)),
        2 => Ok(Some(package_layer(alloc, s)?)),
        3 => Ok(Some(opaque_layer(alloc)?)),
        _ => Ok(None),
    }
}

fn system_layer(alloc: Global, s: u32) -> Result<Vec<GenEntry>, NoMemory>
    ensures { IfOk result (λ entries. map made entries.items ≡ system_tree s) }
{
    let mut out = Vec::new(alloc);
    let release = String::from_str(alloc, "ID=debian\nVERSION_ID=\"12\"\n")?;
    push_directory(alloc, &mut out, "etc")?;
    push_file(alloc, &mut out, "etc/os-release", release)?;
    push_status(alloc, &mut out, paragraphs(alloc, s, &TWENTY)?)?;
    Ok(out)
}

fn status_layer(alloc: Global, s: u32) -> Result<Vec<GenEntry>, NoMemory>
    ensures { IfOk result (λ entries. map made entries.items ≡ status_file (paragraphs s thirty)) }
{
    let mut out = Vec::new(alloc);
    push_status(alloc, &mut out, paragraphs(alloc, s, &THIRTY)?)?;
    Ok(out)
}

#[tactic(auto, using(crate::specs::code::GeneratedNames::packages_wrapped))]
fn package_layer(alloc: Global, s: u32) -> Result<Vec<GenEntry>, NoMemory>
    ensures { IfOk result (λ entries. map made entries.items ≡ package_tree s) }
{
    let mut out = Vec::new(alloc);
    push_directory(alloc, &mut out, "app")?;
    push_directory(alloc, &mut out, "app/node_modules")?;
    let (before, wrapped) = TEN.split_at((100 - s % 100).min(10) as usize);
    push_packages(alloc, &mut out, s, wrapped)?;
    push_packages(alloc, &mut out, s, before)?;
    Ok(out)
}

fn opaque_layer(alloc: Global) -> Result<Vec<GenEntry>, NoMemory>
    ensures { IfOk result (λ entries. map made entries.items ≡ opaque_tree) }
{
    let mut out = Vec::new(alloc);
    push_directory(alloc, &mut out, "app")?;
    push_directory(alloc, &mut out, "app/node_modules")?;
    push_file(
        alloc,
        &mut out,
        "app/node_modules/.wh..wh..opq",
        String::new(alloc),
    )?;
    Ok(out)
}

/// Adds the status file and its directories.
pub(crate) fn push_status(
    alloc: Global,
    out: &mut Vec<GenEntry>,
    text: String,
) -> Result<(), NoMemory>
    ensures { OnOk result (map made out.new.items ≡ map made out.old.items ++ status_file (string_bytes text)) }
{
    push_directory(alloc, out, "var")?;
    push_directory(alloc, out, "var/lib")?;
    push_directory(alloc, out, "var/lib/dpkg")?;
    push_file(alloc, out, "var/lib/dpkg/status", text)?;
    Ok(())
}

/// Adds the entries of several npm packages.
#[tactic(auto, using(crate::specs::code::GeneratedLaws::entries_more))]
fn push_packages(alloc: Global, out: &mut Vec<GenEntry>, s: u32, ks: &[u8]) -> Result<(), NoMemory>
    ensures { OnOk result (map made out.new.items ≡ map made out.old.items ++ packages s ks.now) }
{
    for k in ks {
        push_package(alloc, out, name_number(s, *k), version_number(s, *k))?;
    }
    Ok(())
}

#[tactic(auto, using(crate::specs::code::GeneratedLaws::package_reads, crate::specs::code::GeneratedLaws::manifest_reads))]
fn push_package(
    alloc: Global,
    out: &mut Vec<GenEntry>,
    name: u64,
    version: u64,
) -> Result<(), NoMemory>
    requires { name < 100 }
    ensures { OnOk result (map made out.new.items ≡ map made out.old.items ++ npm_package name version) }
{
    let folder = package_text(alloc, name)?;
    push_directory(alloc, out, folder.as_str())?;
    let at = manifest_text(alloc, name)?;
    let text = manifest(alloc, name, version)?;
    push_file(alloc, out, at.as_str(), text)?;
    Ok(())
}

fn package_text(alloc: Global, name: u64) -> Result<String, NoMemory>
    requires { name < 100 }
    ensures { IfOk result (λ text. string_bytes text ≡ package_text name) }
{
    let mut text = String::from_str(alloc, "app/node_modules/n")?;
    text.push_str(two_digits(alloc, name)?.as_str())?;
    Ok(text)
}

fn manifest_text(alloc: Global, name: u64) -> Result<String, NoMemory>
    requires { name < 100 }
    ensures { IfOk result (λ text. string_bytes text ≡ manifest_text name) }
{
    let mut text = package_text(alloc, name)?;
    text.push_str("/package.json")?;
    Ok(text)
}

pub(crate) fn push_directory(
    alloc: Global,
    out: &mut Vec<GenEntry>,
    text: &str,
) -> Result<(), NoMemory>
    requires { path_of text.now ≡ Ok (components text.now) }
    ensures { OnOk result (map made out.new.items ≡ map made out.old.items ++ directory text.now ∷ []) }
{
    let path = path_at(alloc, text)?;
    out.push(GenEntry { path, text: None })?;
    Ok(())
}

pub(crate) fn push_file(
    alloc: Global,
    out: &mut Vec<GenEntry>,
    at: &str,
    text: String,
) -> Result<(), NoMemory>
    requires { path_of at.now ≡ Ok (components at.now) }
    ensures { OnOk result (map made out.new.items ≡ map made out.old.items ++ file at.now (string_bytes text) ∷ []) }
{
    let path = path_at(alloc, at)?;
    out.push(GenEntry {
        path,
        text: Some(text),
    })?;
    Ok(())
}

/// The path with a text that is one.
fn path_at(alloc: Global, text: &str) -> Result<RelPath, NoMemory>
    requires { path_of text.now ≡ Ok (components text.now) }
    ensures { IfOk result (λ path. path ≡ components text.now) }
{
    match RelPath::read(alloc, text) {
        Ok(path) => Ok(path),
        Err(PathError::NoMemory) => Err(NoMemory),
        Err(PathError::Empty | PathError::TooLong | PathError::BadComponent) => unreachable!(),
    }
}

fn name_number(s: u32, k: u8) -> u64
    ensures value { result ≡ name_number s k }
    ensures small { result < 100 }
{
    (u64::from(s) + u64::from(k)) % 100
}

fn version_number(s: u32, k: u8) -> u64
    ensures { result ≡ version_number s k }
{
    (u64::from(s) + 7 * u64::from(k)) % 50
}

fn two_digits(alloc: Global, n: u64) -> Result<String, NoMemory>
    requires { n < 100 }
    ensures { IfOk result (λ text. string_bytes text ≡ two_digits n) }
{
    let mut text = String::new(alloc);
    push_digit(&mut text, n / 10)?;
    push_digit(&mut text, n % 10)?;
    Ok(text)
}

#[tactic(auto, using(crate::specs::code::GeneratedLaws::digit_text))]
pub(crate) fn push_digit(text: &mut String, digit: u64) -> Result<(), NoMemory>
    requires { digit < 10 }
    ensures { OnOk result (string_bytes text.new ≡ string_bytes text.old ++ (48 + digit) ∷ []) }
{
    Ok(text.push(char::from(b'0' + digit as u8))?)
}

/// The paragraphs of several packages.
fn paragraphs(alloc: Global, s: u32, ks: &[u8]) -> Result<String, NoMemory>
    ensures { IfOk result (λ text. string_bytes text ≡ paragraphs s ks.now) }
{
    let mut out = String::new(alloc);
    for k in ks {
        out.push_str(paragraph(alloc, name_number(s, *k), version_number(s, *k))?.as_str())?;
    }
    Ok(out)
}

#[tactic(auto, unfolding(crate::specs::Generated::paragraph))]
fn paragraph(alloc: Global, name: u64, version: u64) -> Result<String, NoMemory>
    requires { name < 100 }
    ensures { IfOk result (λ text. string_bytes text ≡ paragraph name version) }
{
    let between = "\nStatus: install ok installed\nArchitecture: amd64\nVersion: 1.";
    numbered(alloc, "Package: p", name, between, version, "-1\n\n")
}

#[tactic(auto, unfolding(crate::specs::Generated::manifest))]
fn manifest(alloc: Global, name: u64, version: u64) -> Result<String, NoMemory>
    requires { name < 100 }
    ensures { IfOk result (λ text. string_bytes text ≡ manifest name version) }
{
    numbered(
        alloc,
        "{\"name\":\"n",
        name,
        "\",\"version\":\"1.",
        version,
        ".0\"}",
    )
}

/// The numbers of a package between the parts of a text.
fn numbered(
    alloc: Global,
    first: &str,
    name: u64,
    second: &str,
    version: u64,
    third: &str,
) -> Result<String, NoMemory>
    requires { name < 100 }
    ensures { IfOk result (λ text. string_bytes text ≡ first.now ++ two_digits name ++ second.now ++ decimal version ++ third.now) }
{
    let mut text = String::from_str(alloc, first)?;
    text.push_str(two_digits(alloc, name)?.as_str())?;
    text.push_str(second)?;
    text.push_str(version.to_string(alloc)?.as_str())?;
    text.push_str(third)?;
    Ok(text)
}

/// The entries as a listing gives them.
fn listed(alloc: Global, entries: Vec<GenEntry>) -> Result<Vec<ListEntry>, NoMemory>
    ensures { IfOk result (λ out. out.items ≡ map listed (map made entries.items)) }
{
    let mut out = Vec::new(alloc);
    for entry in entries {
        let GenEntry { path, text } = entry;
        let (kind, size) = match text {
            None => (Kind::Dir, 0),
            Some(text) => (Kind::File, text.len() as u64),
        };
        out.push(ListEntry { path, kind, size })?;
    }
    Ok(out)
}

/// What reading a path of the entries gives.
fn file_read(
    alloc: Global,
    entries: &[GenEntry],
    path: &RelPath,
    limit: u32,
) -> Result<FileRead, NoMemory>
    ensures { IfOk result (λ found. found ≡ file_read (item_at (map made entries.now) path.now) limit) }
{
    for entry in entries {
        if entry.path == *path {
            return entry_read(alloc, entry, limit);
        }
    }
    Ok(FileRead::NotFile)
}

fn entry_read(alloc: Global, entry: &GenEntry, limit: u32) -> Result<FileRead, NoMemory>
    ensures { IfOk result (λ found. found ≡ file_read (Some (item_of_text entry.now.text)) limit) }
{
    let Some(text) = &entry.text else {
        return Ok(FileRead::NotFile);
    };
    if text.len() > limit as usize {
        return Ok(FileRead::TooLarge);
    }
    Ok(FileRead::Bytes(Seq::of(text.as_bytes().to_vec(alloc)?)))
}
