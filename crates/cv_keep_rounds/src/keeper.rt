ghost use Rattle.std.specs.Prelude.{◌≡◌, ◌+◌, ◌≤◌, ◌^◌, ◌++◌, [], ◌∷◌, None, option_map, length, IfSome, OnErr, OnOk};
ghost use Rattle.cv_keep.specs.Records.{gate_after, records};
ghost use Rattle.cv_keep_rounds.specs.Keeping.{IsReady, IsRefused};

use crate::bytes::round_bytes;
use cv_base::NoMemory;
use cv_keep::{Disk, Journal, KeepError};
use cv_serve_dealing::{Keeper, NotedLine};
use cv_transcript::Entry;
use std::alloc::Global;
use std::marker::{Model, PhantomData};

/// Keeps rounds by the records of a journal. It remembers an error of the journal, and is not to be used after one.
#[derive(Drop)]
pub struct KeepRounds<J> {
    journal: Journal,
    error: Option<KeepError>,
    of: PhantomData<J>,
}

impl<J> Model for KeepRounds<J> {
    ghost use Rattle.cv_keep_rounds.specs.Keeping.{KeeperView};

    ghost Value = { KeeperView };

    ghost view = { λ k. record { journal = k.journal; error = k.error } };
}

impl<J> KeepRounds<J> {
    /// Keeps rounds behind the records of this journal.
    pub fn new(journal: Journal) -> KeepRounds<J>
        ensures { result ≡ record { journal = journal; error = None } }
    {
        KeepRounds {
            journal,
            error: None,
            of: PhantomData,
        }
    }

    /// The error of the journal that it met.
    pub fn error(&self) -> Option<KeepError>
        ensures { result ≡ self.now.error }
    {
        self.error
    }
}

impl<J: Disk> KeepRounds<J> {
    /// Appends the record of a round.
    fn append(&mut self, alloc: Global, disk: &mut J, bytes: &[u8]) -> Result<(), NoMemory>
        requires ready { IsReady J.contents J.moment J.may_leave (self.old, disk.old) }
        ensures ready { OnOk result (IsReady J.contents J.moment J.may_leave (self.new, disk.new)) }
        ensures kept { OnOk result (option_map records (J.contents disk.new) ≡ option_map (λ b. records b ++ bytes.now ∷ []) (J.contents disk.old)) }
        ensures fits { OnOk result (IfSome (J.contents disk.old) (λ file. gate_after (records file) + 10 + length bytes.now ≤ 2 ^ 40)) }
        ensures faults { J.faults disk.old ≤ J.faults disk.new }
        ensures refused { OnErr result (IsRefused J.contents J.faults (self.old, disk.old) bytes.now (self.new, disk.new)) }
    {
        match self.journal.append(alloc, disk, bytes) {
            Ok(()) => Ok(()),
            Err(error) => {
                self.error = Some(error);
                Err(NoMemory)
            }
        }
    }
}

impl<J: Disk> Keeper for KeepRounds<J> {
    ghost use Rattle.std.proofs.Common.{refl};
    ghost use Rattle.cv_keep_rounds.specs.Keeping.{IsKept, IsReady, MayBeKept};

    type Disk = J;

    ghost is_ready = { λ x. IsReady J.contents J.moment J.may_leave x };

    ghost keeps = { λ x round y. IsKept J.contents J.faults x round y };

    ghost may_keep = { λ x round y. MayBeKept J.contents J.faults x round y };

    ghost notes = { λ noted lines. noted ≡ lines };

    ghost none = { refl };

    fn note(
        &self,
        alloc: Global,
        noted: &mut Vec<NotedLine>,
        number: u64,
        text: &[u8],
    ) -> Result<(), NoMemory> {
        noted.push(NotedLine::new(alloc, number, text)?)?;
        Ok(())
    }

    fn keep(
        &mut self,
        alloc: Global,
        disk: &mut J,
        noted: &[NotedLine],
        entries: &[Entry],
    ) -> Result<(), NoMemory> {
        let bytes = round_bytes(alloc, noted, entries)?;
        if bytes.is_empty() {
            return Ok(());
        }
        self.append(alloc, disk, bytes.as_slice())
    }
}
