ghost use Rattle.std.specs.Prelude.{◌≡◌};
ghost use Rattle.test_image.specs.Sample.{sample_rows};

use cv_base::{Digest, Kind, ListEntry, RelPath, Seq};
use cv_desk::{Desk, DeskFault, FileRead, Table, TableDesk, TableEntry, entry};
use cv_desk_drill::GenDesk;
use cv_desk_folder::FolderDesk;
use cv_desk_wrappers::{Faulty, GateDesk};
use std::alloc::Global;
use std::str;
use std::test::Fail;

static ROWS: [TableEntry; 5] = [
    entry!("etc", Dir, b""),
    entry!("etc/os-release", File, b"ID=debian\n"),
    entry!("etc//shadow", File, b""),
    entry!("etc/os-release", Dir, b""),
    entry!("notes", File, b"four"),
];

/// One layer, for all digests. Its third row is not a valid path, and the fourth has the path of the second.
struct Sample;

impl Table for Sample {
    ghost rows = { sample_rows };

    fn layer(_digest: &Digest) -> Option<&'static [TableEntry]> {
        Some(&ROWS)
    }
}

/// What a listing of the sample is.
const LISTING: &str = "Dir etc 0\nFile etc/os-release 10\nFile notes 4\n";

fn sample_desk() -> TableDesk<Sample>
    ensures { ⟦<TableDesk<Sample> as Desk>⟧.listings result ≡ 0 }
{
    TableDesk::new()
}

fn layer() -> Digest {
    Digest::of([0; 32])
}

/// The entries of a listing, a line each, or that it failed.
fn listing(
    alloc: Global,
    found: Result<Option<Seq<ListEntry>>, DeskFault>,
) -> Result<String, Fail> {
    let entries = match found {
        Ok(Some(entries)) => entries,
        Err(DeskFault::NoMemory) => return Err(Fail::from(DeskFault::NoMemory)),
        Ok(None) | Err(DeskFault::Failed) => return Ok(String::from_str(alloc, "failed")?),
    };
    let mut out = String::new(alloc);
    for entry in entries.as_slice() {
        let path = entry.path.text();
        let line = format!(in alloc; "{:?} {path} {}\n", entry.kind, entry.size)?;
        out.push_str(line.as_str())?;
    }
    Ok(out)
}

/// Reads a file of the layer: its text, or why there is none.
fn read<D: Desk>(alloc: Global, desk: &mut D, path: &str, limit: u32) -> Result<String, Fail>
    ensures { D.listings desk.new ≡ D.listings desk.old }
{
    let path = RelPath::read(alloc, path)?;
    let read = desk.read(alloc, &layer(), &path, limit);
    let text = match &read {
        Ok(FileRead::Bytes(bytes)) => str::from_utf8(bytes.as_slice())?,
        Ok(FileRead::TooLarge) => "too large",
        Ok(FileRead::NotFile) => "no file",
        Err(DeskFault::NoMemory) => return Err(Fail::from(DeskFault::NoMemory)),
        Err(DeskFault::Failed) => "failed",
    };
    Ok(String::from_str(alloc, text)?)
}

#[test]
fn rows_of_a_table_are_listed_and_read(rt: HostRuntime) -> Result<(), Fail> {
    let alloc = rt.alloc();
    let found = sample_desk().list(alloc, &layer());
    assert_eq!(rt; listing(alloc, found)?.as_str(), LISTING);
    for (path, limit, want) in [
        ("notes", 4, "four"),
        ("notes", 3, "too large"),
        ("etc/os-release", 10, "ID=debian\n"),
        ("etc", 10, "no file"),
        ("etc/shadow", 10, "no file"),
    ] {
        let read = read(alloc, &mut sample_desk(), path, limit)?;
        assert_eq!(rt; read.as_str(), want);
    }
    Ok(())
}

#[test]
fn the_second_and_third_call_fail_be_they_listings_or_reads(rt: HostRuntime) -> Result<(), Fail> {
    let alloc = rt.alloc();
    let mut desk = Faulty::new(sample_desk(), Seq::of(vec![in alloc; 2, 3]?));
    let first = desk.list(alloc, &layer());
    assert_eq!(rt; listing(alloc, first)?.as_str(), LISTING);
    assert_eq!(rt; read(alloc, &mut desk, "notes", 4)?.as_str(), "failed");
    let third = desk.list(alloc, &layer());
    assert_eq!(rt; listing(alloc, third)?.as_str(), "failed");
    assert_eq!(rt; read(alloc, &mut desk, "notes", 4)?.as_str(), "four");
    Ok(())
}

/// Only a type that threads may share is one for which this can be called.
fn is_shared<T: Send + Sync>() {}

#[test]
fn threads_may_share_desks() {
    is_shared::<(TableDesk<Sample>, Faulty<TableDesk<Sample>>)>();
    is_shared::<(FolderDesk<HostRuntime>, GateDesk<TableDesk<Sample>>)>();
    is_shared::<(GenDesk, DeskFault, FileRead)>();
}

#[test]
fn a_desk_has_passed_once_all_its_listings_reached_the_goal(rt: HostRuntime) -> Result<(), Fail> {
    for (goals, listings, want) in [
        ((1, 2), (1, 1), (true, true)),
        ((1, 0), (1, 0), (true, false)),
        ((2, 2), (1, 0), (false, false)),
        ((2, 2), (2, 0), (false, false)),
    ] {
        let passed = passed(rt.alloc(), goals, listings)?;
        assert_eq!(rt;
            passed,
            want,
            "{listings:?} listings and the goals {goals:?}"
        );
    }
    Ok(())
}

/// Whether two desks with these goals have passed after these numbers of listings of the first and then of the second, at most two each.
fn passed(alloc: Global, goals: (u64, u64), listings: (u8, u8)) -> Result<(bool, bool), Fail> {
    let (mut first, mut second) = GateDesk::pair(
        alloc,
        sample_desk(),
        sample_desk(),
        goals.0,
        goals.1,
    )?;
    list(alloc, &mut first, listings.0)?;
    list(alloc, &mut second, listings.1)?;
    Ok((first.passed(), second.passed()))
}

/// Reads a file, and then lists the layer at most twice.
fn list<D: Desk>(alloc: Global, desk: &mut D, times: u8) -> Result<(), Fail>
    requires { D.listings desk.old ≡ 0 }
{
    read(alloc, desk, "notes", 4)?;
    if times > 0 {
        desk.list(alloc, &layer())?;
    }
    if times > 1 {
        desk.list(alloc, &layer())?;
    }
    Ok(())
}
