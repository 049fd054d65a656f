ghost use Rattle.std.specs.Prelude.{◌≡◌, ℕ, List, Option, map, IfOk, OnOk, Some};
ghost use Rattle.std.specs.Option.{option_map};
ghost use Rattle.cv_base.specs.Path.{path_of};
ghost use Rattle.cv_desk.specs.Row.{Row};
ghost use Rattle.cv_desk.specs.Stored.{file_read, item_at, listed};
ghost use Rattle.cv_desk.specs.Table.{is_path, item_of, tree_of_rows};
ghost use Rattle.cv_desk.specs.code.TableRow.{row_of, stored_of};
ghost use Rattle.cv_desk.specs.code.TableSteps.{HasPaths, first_at, with_entry, with_row};

use crate::desk::{Desk, DeskFault, FileRead, ReadResult};
use cv_base::{Digest, Kind, ListEntry, NoMemory, PathError, RelPath, Seq};
use std::alloc::Global;
use std::collections::BTreeSet;
use std::marker::PhantomData;

/// A row of a table of layers.
#[derive(Clone, Copy)]
pub struct TableEntry {
    pub path: &'static str,
    pub kind: Kind,
    pub bytes: &'static [u8],
}

/// A row of a table: a folder by its path, a file by its path and bytes, or an entry of a named kind. The caller imports
/// `cv_base::Kind`.
#[macro_export]
macro_rules! entry {
    ($path:expr) => {
        $crate::entry!($path, Dir, b"")
    };
    ($path:expr, $bytes:expr) => {
        $crate::entry!($path, File, $bytes)
    };
    ($path:expr, $kind:ident, $bytes:expr) => {
        $crate::TableEntry {
            path: $path,
            kind: Kind::$kind,
            bytes: $bytes,
        }
    };
}

/// A fixed table of layers. Its rows are given once more as plain data, and the clause says that both are equal.
pub trait Table {
    /// The rows of each digest that has a layer.
    ghost rows: { List ℕ → Option (List Row) };

    /// The rows of a digest, or that it has no layer.
    fn layer(digest: &Digest) -> Option<&'static [TableEntry]>
        ensures { option_map (λ found. map row_of found.now) result ≡ rows digest.now };
}

/// A desk over a fixed table, which never fails. A row whose text is not a valid path, or whose path an earlier row has, is
/// no entry. Tables are small: each listing goes over all rows, and each read over those up to its path.
#[derive(Drop)]
pub struct TableDesk<T: Table> {
    listings: u64,
    reads: u64,
    of: PhantomData<T>,
}

impl<T: Table> TableDesk<T> {
    /// A desk over the table `T`.
    pub fn new() -> TableDesk<T>
        ensures listings { ⟦<TableDesk<T> as Desk>⟧.listings result ≡ 0 }
        ensures reads { ⟦<TableDesk<T> as Desk>⟧.reads result ≡ 0 }
    {
        TableDesk {
            listings: 0,
            reads: 0,
            of: PhantomData,
        }
    }
}

impl<T: Table> Desk for TableDesk<T> {
    ghost use Rattle.std.specs.Prelude.{Some};
    ghost use Rattle.std.specs.Option.{option_map};
    ghost use Rattle.cv_desk.specs.Table.{tree_of_rows};
    ghost use Rattle.cv_desk.specs.code.TableLaws.{table_distinct, table_paths};

    ghost tree = { λ d. Some (option_map tree_of_rows (T.rows d)) };

    ghost faults = { λ s. 0 };

    ghost listings = { λ s. s.listings };

    ghost reads = { λ s. s.reads };

    ghost distinct = { λ d. table_distinct (T.rows d) };

    ghost paths = { λ d. table_paths (T.rows d) };

    fn list(&mut self, alloc: Global, layer: &Digest) -> Result<Option<Seq<ListEntry>>, DeskFault> {
        self.listings += 1;
        match T::layer(layer) {
            None => Ok(None),
            Some(rows) => Ok(Some(Seq::of(listed(alloc, entries(alloc, rows)?)?))),
        }
    }

    fn read(&mut self, alloc: Global, layer: &Digest, path: &RelPath, limit: u32) -> ReadResult {
        self.reads = self.reads.saturating_add(1);
        match T::layer(layer) {
            None => Ok(FileRead::NotFile),
            Some(rows) => Ok(file_read(alloc, rows, path, limit)?),
        }
    }
}

/// A row whose text was read.
#[derive(Drop)]
struct Entry {
    path: RelPath,
    kind: Kind,
    bytes: &'static [u8],
}

/// The entries that rows make.
#[tactic(auto, using(crate::specs::code::TableLaws::rows_added))]
fn entries(alloc: Global, rows: &[TableEntry]) -> Result<Vec<Entry>, NoMemory>
    ensures { IfOk result (λ out. map stored_of out.items ≡ tree_of_rows (map row_of rows.now)) }
{
    let mut out = Vec::new(alloc);
    let mut paths = BTreeSet::new(alloc);
    for row in rows {
        add_row(alloc, &mut out, &mut paths, row)?;
    }
    Ok(out)
}

/// Adds the entry of one more row, if it makes one. `paths` has the paths of the entries.
fn add_row(
    alloc: Global,
    out: &mut Vec<Entry>,
    paths: &mut BTreeSet<RelPath>,
    row: &TableEntry,
) -> Result<(), NoMemory>
    requires { HasPaths paths.old (map stored_of out.old.items) }
    ensures entries { OnOk result (map stored_of out.new.items ≡ with_row (map stored_of out.old.items) (row_of row.now)) }
    ensures paths { OnOk result (HasPaths paths.new (map stored_of out.new.items)) }
{
    match RelPath::read(alloc, row.path) {
        Ok(path) => add_entry(out, paths, path, row),
        Err(PathError::NoMemory) => Err(NoMemory),
        Err(PathError::Empty | PathError::TooLong | PathError::BadComponent) => Ok(()),
    }
}

/// Adds the entry of a row of this path, unless an entry has it already.
fn add_entry(
    out: &mut Vec<Entry>,
    paths: &mut BTreeSet<RelPath>,
    path: RelPath,
    row: &TableEntry,
) -> Result<(), NoMemory>
    requires { HasPaths paths.old (map stored_of out.old.items) }
    ensures entries { OnOk result (map stored_of out.new.items ≡ with_entry (map stored_of out.old.items) (record { path = path; item = item_of row.now.kind row.now.bytes.now })) }
    ensures paths { OnOk result (HasPaths paths.new (map stored_of out.new.items)) }
{
    if !paths.insert(path.clone()?)? {
        return Ok(());
    }
    out.push(Entry {
        path,
        kind: row.kind,
        bytes: row.bytes,
    })?;
    Ok(())
}

/// The entries as a listing gives them.
fn listed(alloc: Global, entries: Vec<Entry>) -> Result<Vec<ListEntry>, NoMemory>
    ensures { IfOk result (λ out. out.items ≡ map listed (map stored_of entries.items)) }
{
    let mut out = Vec::new(alloc);
    for entry in entries {
        let Entry { path, kind, bytes } = entry;
        let size = match kind {
            Kind::Dir => 0,
            Kind::File => bytes.len() as u64,
            Kind::Other => 0,
        };
        out.push(ListEntry { path, kind, size })?;
    }
    Ok(out)
}

/// What reading a path of the rows gives.
#[tactic(auto, using(crate::specs::code::TableLaws::first_found))]
fn file_read(
    alloc: Global,
    rows: &[TableEntry],
    path: &RelPath,
    limit: u32,
) -> Result<FileRead, NoMemory>
    ensures { IfOk result (λ found. found ≡ file_read (item_at (tree_of_rows (map row_of rows.now)) path.now) limit) }
{
    match first_at(alloc, rows, path)? {
        None => Ok(FileRead::NotFile),
        Some(row) => row_read(alloc, row, limit),
    }
}

/// The first row that has this path.
fn first_at<'a>(
    alloc: Global,
    rows: &'a [TableEntry],
    path: &RelPath,
) -> Result<Option<&'a TableEntry>, NoMemory>
    ensures { IfOk result (λ found. option_map (λ row. item_of row.now.kind row.now.bytes.now) found ≡ first_at (map row_of rows.now) path.now) }
{
    for row in rows {
        if has_path(alloc, row, path)? {
            return Ok(Some(row));
        }
    }
    Ok(None)
}

fn has_path(alloc: Global, row: &TableEntry, path: &RelPath) -> Result<bool, NoMemory>
    ensures { IfOk result (λ has. has ≡ is_path (path_of row.now.path.now) path.now) }
{
    match RelPath::read(alloc, row.path) {
        Ok(read) => Ok(read == *path),
        Err(PathError::NoMemory) => Err(NoMemory),
        Err(PathError::Empty | PathError::TooLong | PathError::BadComponent) => Ok(false),
    }
}

fn row_read(alloc: Global, row: &TableEntry, limit: u32) -> Result<FileRead, NoMemory>
    ensures { IfOk result (λ found. found ≡ file_read (Some (item_of row.now.kind row.now.bytes.now)) limit) }
{
    match row.kind {
        Kind::Dir => Ok(FileRead::NotFile),
        Kind::File => {
            if row.bytes.len() > limit as usize {
                Ok(FileRead::TooLarge)
            } else {
                Ok(FileRead::Bytes(Seq::of(row.bytes.to_vec(alloc)?)))
            }
        }
        Kind::Other => Ok(FileRead::NotFile),
    }
}
