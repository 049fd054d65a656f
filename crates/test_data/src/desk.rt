ghost use Rattle.std.specs.Prelude.{◌≡◌, IfOk};

use cv_base::{Digest, Kind, ListEntry, NoMemory, PathError, RelPath, Seq};
use cv_desk::{Desk, DeskFault, FileRead, ReadResult, TableEntry};
use std::alloc::Global;

/// An entry of a layer. The bytes are those of a file.
#[derive(Drop)]
pub struct SampleEntry {
    pub path: &'static str,
    pub kind: Kind,
    pub bytes: Vec<u8>,
}

/// A layer with its entries.
#[derive(Drop)]
pub struct SampleLayer {
    pub digest: Digest,
    pub entries: Vec<SampleEntry>,
}

impl SampleLayer {
    /// A layer with the entries of a table.
    pub fn of(alloc: Global, digest: Digest, table: &[TableEntry]) -> Result<SampleLayer, NoMemory>
        ensures { IfOk result (λ layer. layer.digest ≡ digest) }
    {
        let mut entries = Vec::new(alloc);
        for row in table {
            entries.push(SampleEntry {
                path: row.path,
                kind: row.kind,
                bytes: row.bytes.to_vec(alloc)?,
            })?;
        }
        Ok(SampleLayer { digest, entries })
    }

    /// A layer with entries that are written as a path and the text of a file. A path that ends with a slash is a folder.
    pub fn of_rows(
        alloc: Global,
        digest: Digest,
        rows: &[(&'static str, &str)],
    ) -> Result<SampleLayer, NoMemory>
        ensures { IfOk result (λ layer. layer.digest ≡ digest) }
    {
        let mut entries = Vec::new(alloc);
        for (path, text) in rows {
            let (path, kind) = match path.strip_suffix('/') {
                Some(folder) => (folder, Kind::Dir),
                None => (*path, Kind::File),
            };
            entries.push(SampleEntry {
                path,
                kind,
                bytes: text.as_bytes().to_vec(alloc)?,
            })?;
        }
        Ok(SampleLayer { digest, entries })
    }
}

/// A desk over layers that were made for the purpose, which never fails. Its type does not say what they are, so that no contract
/// speaks of what is found in them.
#[derive(Drop)]
pub struct SampleDesk {
    layers: Vec<SampleLayer>,
    listings: u64,
    reads: u64,
}

impl Desk for SampleDesk {
    ghost use Rattle.std.specs.Prelude.{None};

    ghost tree = { λ _. None };

    ghost faults = { λ _. 0 };

    ghost distinct = { λ _. tt };

    ghost paths = { λ _. tt };

    ghost listings = { λ s. s.listings };

    ghost reads = { λ s. s.reads };

    fn list(&mut self, alloc: Global, layer: &Digest) -> Result<Option<Seq<ListEntry>>, DeskFault> {
        self.listings += 1;
        let Some(layer) = self.layer(layer) else {
            return Ok(None);
        };
        let mut listing = Vec::new(alloc);
        for entry in &layer.entries {
            add_listed(alloc, &mut listing, entry)?;
        }
        Ok(Some(Seq::of(listing)))
    }

    fn read(&mut self, alloc: Global, layer: &Digest, path: &RelPath, limit: u32) -> ReadResult {
        self.reads = self.reads.saturating_add(1);
        match self.file(layer, path.text()) {
            None => Ok(FileRead::NotFile),
            Some(bytes) => Ok(file_read(alloc, bytes, limit)?),
        }
    }
}

impl SampleDesk {
    /// A desk with these layers.
    pub fn of(layers: Vec<SampleLayer>) -> SampleDesk
        ensures { ⟦<SampleDesk as Desk>⟧.listings result ≡ 0 }
    {
        SampleDesk {
            layers,
            listings: 0,
            reads: 0,
        }
    }

    /// A desk over the same layers that was not used yet.
    pub fn renewed(self) -> SampleDesk
        ensures { ⟦<SampleDesk as Desk>⟧.listings result ≡ 0 }
    {
        let SampleDesk { layers, .. } = self;
        SampleDesk::of(layers)
    }

    /// The layer of a digest, if there is one.
    fn layer(&self, digest: &Digest) -> Option<&SampleLayer> {
        for layer in &self.layers {
            if layer.digest == *digest {
                return Some(layer);
            }
        }
        None
    }

    /// The bytes of the first file of a path in a layer, if there is one.
    fn file(&self, layer: &Digest, path: &str) -> Option<&[u8]> {
        for entry in &self.layer(layer)?.entries {
            if entry.kind == Kind::File && entry.path == path {
                return Some(entry.bytes.as_slice());
            }
        }
        None
    }
}

/// Adds an entry as a listing gives it. A text that is not a valid path makes no entry.
fn add_listed(
    alloc: Global,
    listing: &mut Vec<ListEntry>,
    entry: &SampleEntry,
) -> Result<(), NoMemory> {
    let path = match RelPath::read(alloc, entry.path) {
        Ok(path) => path,
        Err(PathError::NoMemory) => return Err(NoMemory),
        Err(PathError::Empty | PathError::TooLong | PathError::BadComponent) => return Ok(()),
    };
    listing.push(ListEntry {
        path,
        kind: entry.kind,
        size: entry.bytes.len() as u64,
    })?;
    Ok(())
}

/// What reading these bytes of a file gives.
fn file_read(alloc: Global, bytes: &[u8], limit: u32) -> Result<FileRead, NoMemory> {
    if bytes.len() > limit as usize {
        return Ok(FileRead::TooLarge);
    }
    Ok(FileRead::Bytes(Seq::of(bytes.to_vec(alloc)?)))
}
