ghost use Rattle.std.specs.Prelude.{◌≡◌, ℕ, ◌+◌, ◌^◌, ◌<◌, List, map, Option, IfOk, IfSome};
ghost use Rattle.std.specs.Option.{option_map};
ghost use Rattle.cv_seq.specs.Cause.{CausedBy, next_count};
ghost use Rattle.cv_desk.specs.Fault.{is_failed};
ghost use Rattle.cv_desk.specs.Stored.{ArePathsIn, IsDistinctIn, Stored, file_read, item_in, listed};
ghost use Rattle.cv_desk.specs.declared.desk.DeskFault.TheVariants as desk;

use cv_base::{Digest, ListEntry, NoMemory, RelPath, Seq};
use std::alloc::Global;
use thiserror::Error;

/// Why a desk gave no answer.
#[derive(Clone, Copy, Debug, PartialEq, Eq, Error)]
pub enum DeskFault {
    #[error("the layer could not be read")]
    Failed,
    #[error("out of memory")]
    NoMemory,
}

/// What a read gives: the bytes of a file, or why there are none.
#[derive(Clone, Debug, PartialEq, Eq, Drop)]
pub enum FileRead {
    Bytes(Seq<u8>),
    TooLarge,
    NotFile,
}

/// The answer to a read, or why the desk gave none.
pub type ReadResult = Result<FileRead, DeskFault>;

impl From<NoMemory> for DeskFault {
    ghost from_gives = { λ _ e. e ≡ desk.NoMemory };

    fn from(_error: NoMemory) -> DeskFault {
        DeskFault::NoMemory
    }
}

/// Where layers are kept. A desk's type names the tree of each digest that has a layer, if the trees are known. A desk counts
/// the faults of the storage under it, and the listings and reads that were asked of it. No count falls.
pub trait Desk {
    /// The tree of each digest, or that it has no layer, if it is known.
    ghost tree: { List ℕ → Option (Option (List Stored)) };

    /// How often the storage failed.
    ghost faults: { Self → ℕ };

    /// How often a layer was listed.
    ghost listings: { Self → ℕ };

    /// How often a file was read.
    ghost reads: { Self → ℕ };

    /// Lists a layer's entries in order; `None` says that there is no such layer. `Failed` says that the storage failed,
    /// which is counted.
    fn list(&mut self, alloc: Global, layer: &Digest) -> Result<Option<Seq<ListEntry>>, DeskFault>
        requires room { listings self.old < 2 ^ 63 + 2 ^ 62 }
        ensures entries { IfSome (tree layer.now) (λ t. IfOk result (λ found. found ≡ option_map (map listed) t)) }
        ensures cause { CausedBy (faults self.old) (faults self.new) (is_failed result) }
        ensures counted { listings self.new ≡ listings self.old + 1 }
        ensures unread { reads self.new ≡ reads self.old };

    /// Reads a file of a layer: its bytes, if there are at most `limit` of them, and else `TooLarge`. A path at which there
    /// is no file is `NotFile`. `Failed` says that the storage failed, which is counted.
    fn read(&mut self, alloc: Global, layer: &Digest, path: &RelPath, limit: u32) -> ReadResult
        ensures file { IfSome (tree layer.now) (λ t. IfOk result (λ found. found ≡ file_read (item_in t path.now) limit)) }
        ensures cause { CausedBy (faults self.old) (faults self.new) (is_failed result) }
        ensures same { listings self.new ≡ listings self.old }
        ensures reads { reads self.new ≡ next_count (reads self.old) };

    /// No path stands twice in a tree.
    ghost distinct: { (digest : List ℕ) → IsDistinctIn (tree digest) };

    /// Each path in a tree is read from some text.
    ghost paths: { (digest : List ℕ) → ArePathsIn (tree digest) };
}
