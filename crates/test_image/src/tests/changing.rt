ghost use Rattle.std.specs.Prelude.{◌≡◌, IfOk};

use cv_base::{Digest, ListEntry, NoMemory, RelPath, Seq};
use cv_desk::{Desk, DeskFault, FileRead, ReadResult};
use std::alloc::Global;
use test_data::{SampleDesk, SampleLayer};

/// The text of a file that is too large when it is read.
pub const TOO_LARGE: &str = "too large";

/// The text of a file that is gone when it is read.
pub const GONE: &str = "gone";

/// The text of a file that is shorter when it is read.
pub const SHORTER: &str = "shorter";

/// A desk over a sample layer, some of whose files are another way when they are read than when they are listed. It keeps which
/// files are read.
#[derive(Drop)]
pub struct Changing {
    inner: SampleDesk,
    paths: Vec<RelPath>,
}

impl Changing {
    /// A desk over one layer, which has these entries.
    pub fn of(
        alloc: Global,
        digest: Digest,
        rows: &[(&'static str, &str)],
    ) -> Result<Changing, NoMemory>
        ensures { IfOk result (λ desk. ⟦<Changing as Desk>⟧.listings desk ≡ 0) }
    {
        let layer = SampleLayer::of_rows(alloc, digest, rows)?;
        Ok(Changing {
            inner: SampleDesk::of(vec![in alloc; layer]?),
            paths: Vec::new(alloc),
        })
    }

    /// The files that were read, in this order.
    pub fn paths(&self) -> &[RelPath] {
        self.paths.as_slice()
    }
}

impl Desk for Changing {
    ghost use Rattle.std.specs.Prelude.{None};

    ghost tree = { λ _. None };

    ghost faults = { λ _. 0 };

    ghost listings = { λ s. ⟦<SampleDesk as Desk>⟧.listings s.inner };

    ghost reads = { λ s. ⟦<SampleDesk as Desk>⟧.reads s.inner };

    ghost distinct = { λ _. tt };

    ghost paths = { λ _. tt };

    fn list(&mut self, alloc: Global, layer: &Digest) -> Result<Option<Seq<ListEntry>>, DeskFault> {
        self.inner.list(alloc, layer)
    }

    fn read(&mut self, alloc: Global, layer: &Digest, path: &RelPath, limit: u32) -> ReadResult {
        let read = self.inner.read(alloc, layer, path, limit)?;
        add_path(&mut self.paths, path)?;
        Ok(changed(alloc, read)?)
    }
}

fn add_path(paths: &mut Vec<RelPath>, path: &RelPath) -> Result<(), NoMemory> {
    paths.push(path.clone()?)?;
    Ok(())
}

/// What a read gives where the layer has a file that reads so.
fn changed(alloc: Global, read: FileRead) -> Result<FileRead, NoMemory> {
    let FileRead::Bytes(bytes) = &read else {
        return Ok(read);
    };
    let text = bytes.as_slice();
    if text == TOO_LARGE.as_bytes() {
        return Ok(FileRead::TooLarge);
    }
    if text == GONE.as_bytes() {
        return Ok(FileRead::NotFile);
    }
    if text == SHORTER.as_bytes() {
        return Ok(FileRead::Bytes(Seq::of(b"short".to_vec(alloc)?)));
    }
    Ok(read)
}
