ghost use Rattle.std.specs.Prelude.{◌≡◌, ◌++◌, ◌∷◌, [], ◌<◌, map, string_bytes, IfOk, OnOk};
ghost use Rattle.std.specs.List.{range_with_len};
ghost use Rattle.std.specs.Option.{option_map};
ghost use Rattle.cv_desk_drill.specs.Hostile.{eight_digits, empty_file, empty_files, file_name, hostile, hostile_tree, line_feeds, nested_directories, nested_directory, nested_text};
ghost use Rattle.cv_desk_drill.specs.code.GeneratedEntry.{made};

use crate::generated::{
    GenEntry, are_zeros, listing_of, number_of, push_digit, push_directory, push_file, push_status,
    read_of,
};
use cv_base::{Digest, ListEntry, NoMemory, RelPath, Seq};
use cv_desk::{Desk, DeskFault, ReadResult};
use std::alloc::Global;

/// The most files of a layer: one more than a good tree may have entries.
const MOST_FILES: u32 = 1_000_001;

/// The most directories of a layer, each in the one before: the path of the last one has 4,095 bytes.
const MOST_DIRECTORIES: u32 = 2_048;

/// The most bytes of a status file: one more than are read of a package file.
const MOST_BYTES: u32 = 33_554_433;

/// A desk of hostile sizes, whose digests spell their layers, for tests. It never fails. A digest's byte 0 is a role from 4 to 6,
/// bytes 1 to 4 are a number, the most significant byte first, and the other bytes are 0. Role 4 is a layer of that number of empty
/// files, up to 1,000,001; role 5 one of that number of directories, each in the one before, up to 2,048; role 6 one whose dpkg status has
/// that number of line feeds and nothing else, up to 33,554,433. Every other digest has no layer.
#[derive(Drop)]
pub struct HostileDesk {
    listings: u64,
    reads: u64,
}

impl HostileDesk {
    /// A desk over all these layers.
    pub fn new() -> HostileDesk
        ensures listings { ⟦<HostileDesk as Desk>⟧.listings result ≡ 0 }
        ensures reads { ⟦<HostileDesk as Desk>⟧.reads result ≡ 0 }
    {
        HostileDesk {
            listings: 0,
            reads: 0,
        }
    }
}

impl Desk for HostileDesk {
    ghost use Rattle.std.specs.Prelude.{Some};
    ghost use Rattle.cv_desk_drill.specs.Hostile.{hostile};
    ghost use Rattle.cv_desk_drill.specs.code.HostileLaws.{hostile_distinct, hostile_paths};

    ghost tree = { λ d. Some (hostile d) };

    ghost faults = { λ s. 0 };

    ghost listings = { λ s. s.listings };

    ghost reads = { λ s. s.reads };

    ghost distinct = { hostile_distinct };

    ghost paths = { hostile_paths };

    fn list(&mut self, alloc: Global, layer: &Digest) -> Result<Option<Seq<ListEntry>>, DeskFault> {
        self.listings += 1;
        Ok(listing_of(alloc, hostile_layer(alloc, layer)?)?)
    }

    fn read(&mut self, alloc: Global, layer: &Digest, path: &RelPath, limit: u32) -> ReadResult {
        self.reads = self.reads.saturating_add(1);
        Ok(read_of(alloc, hostile_layer(alloc, layer)?, path, limit)?)
    }
}

/// The entries of the layer that a digest spells, if it spells one.
fn hostile_layer(alloc: Global, layer: &Digest) -> Result<Option<Vec<GenEntry>>, NoMemory>
    ensures { IfOk result (λ found. option_map (λ entries. map made entries.items) found ≡ hostile layer.now) }
{
    let bytes = layer.bytes();
    let (_, zeros) = bytes.as_slice().split_at(5);
    if !are_zeros(zeros) {
        return Ok(None);
    }
    role_layer(
        alloc,
        bytes[0],
        number_of(bytes[1], bytes[2], bytes[3], bytes[4]),
    )
}

fn role_layer(alloc: Global, role: u8, s: u32) -> Result<Option<Vec<GenEntry>>, NoMemory>
    ensures { IfOk result (λ found. option_map (λ entries. map made entries.items) found ≡ hostile_tree role s) }
{
    match role {
        4 if s <= MOST_FILES => Ok(Some(file_layer(alloc, s)?)),
        5 if s <= MOST_DIRECTORIES => Ok(Some(directory_layer(alloc, s)?)),
        6 if s <= MOST_BYTES => Ok(Some(line_feed_layer(alloc, s)?)),
        _ => Ok(None),
    }
}

#[tactic(auto, using(crate::specs::code::HostileLaws::file_reads))]
fn file_layer(alloc: Global, s: u32) -> Result<Vec<GenEntry>, NoMemory>
    ensures { IfOk result (λ entries. map made entries.items ≡ empty_files s) }
{
    let mut out = Vec::new(alloc);
    for number in 0..s {
        let name = file_name(alloc, number)?;
        push_file(alloc, &mut out, name.as_str(), String::new(alloc))?;
    }
    Ok(out)
}

/// `f` and a number in eight digits.
fn file_name(alloc: Global, number: u32) -> Result<String, NoMemory>
    ensures { IfOk result (λ text. string_bytes text ≡ file_name number) }
{
    let n = u64::from(number);
    let mut text = String::from_str(alloc, "f")?;
    push_digit(&mut text, n / 10_000_000 % 10)?;
    push_digit(&mut text, n / 1_000_000 % 10)?;
    push_digit(&mut text, n / 100_000 % 10)?;
    push_digit(&mut text, n / 10_000 % 10)?;
    push_digit(&mut text, n / 1_000 % 10)?;
    push_digit(&mut text, n / 100 % 10)?;
    push_digit(&mut text, n / 10 % 10)?;
    push_digit(&mut text, n % 10)?;
    Ok(text)
}

#[tactic(auto, using(crate::specs::code::HostileLaws::nested_reads))]
fn directory_layer(alloc: Global, s: u32) -> Result<Vec<GenEntry>, NoMemory>
    requires { s < 2049 }
    ensures { IfOk result (λ entries. map made entries.items ≡ nested_directories s) }
{
    let mut out = Vec::new(alloc);
    for depth in 0..s {
        let text = nested_text(alloc, depth)?;
        push_directory(alloc, &mut out, text.as_str())?;
    }
    Ok(out)
}

/// The path of a directory `d` with this number of directories above it.
fn nested_text(alloc: Global, depth: u32) -> Result<String, NoMemory>
    ensures { IfOk result (λ text. string_bytes text ≡ nested_text depth) }
{
    let mut text = "d/".repeat(alloc, depth as usize)?;
    text.push_str("d")?;
    Ok(text)
}

fn line_feed_layer(alloc: Global, s: u32) -> Result<Vec<GenEntry>, NoMemory>
    ensures { IfOk result (λ entries. map made entries.items ≡ line_feeds s) }
{
    let mut out = Vec::new(alloc);
    push_status(alloc, &mut out, "\n".repeat(alloc, s as usize)?)?;
    Ok(out)
}
