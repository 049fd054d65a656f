ghost use Rattle.std.specs.Prelude.{◌≡◌, ◌+◌, ◌<◌, ◌^◌, MatchBool, IfOk, IfSome, map};
ghost use Rattle.std.specs.Option.{option_map};
ghost use Rattle.cv_seq.specs.Cause.{CausedBy, next_count};
ghost use Rattle.cv_desk_wrappers.specs.Failing.{fails_next, faults_after};
ghost use Rattle.cv_desk.specs.Fault.{is_failed};
ghost use Rattle.cv_desk.specs.Stored.{file_read, item_in, listed};

use cv_base::{Digest, ListEntry, RelPath, Seq};
use cv_desk::{Desk, DeskFault, ReadResult};
use std::alloc::Global;
use std::marker::Model;

/// A wrapper around a desk, some of whose calls fail. Listings and reads are numbered together, from 1. A call that is to
/// fail answers `Failed` and does not reach the inner desk; every other call is the inner desk's own.
#[derive(Drop)]
pub struct Faulty<D: Desk> {
    desk: D,
    fails: Seq<u64>,
    calls: u64,
    faults: u64,
    listings: u64,
    reads: u64,
}

impl<D: Desk> Model for Faulty<D> {
    ghost use Rattle.std.specs.Prelude.{◌≤◌};
    ghost use Rattle.cv_desk_wrappers.specs.Failing.{Failing};

    ghost Value = { Failing D };

    ghost view = { λ s. record { desk = s.desk; fails = s.fails; calls = s.calls; faults = s.faults; listings = s.listings; reads = s.reads } };

    ghost invariant = { λ s. D.listings s.desk ≤ s.listings };
}

impl<D: Desk> Faulty<D> {
    /// A desk of which the calls with these numbers are to fail. No call was made yet.
    pub fn new(desk: D, fails: Seq<u64>) -> Faulty<D>
        requires { D.listings desk ≡ 0 }
        ensures made { result ≡ record { desk = desk; fails = fails; calls = 0; faults = 0; listings = 0; reads = 0 } }
        ensures faults { ⟦<Faulty<D> as Desk>⟧.faults result ≡ D.faults desk }
        ensures listings { ⟦<Faulty<D> as Desk>⟧.listings result ≡ D.listings desk }
        ensures reads { ⟦<Faulty<D> as Desk>⟧.reads result ≡ 0 }
    {
        Faulty {
            desk,
            fails,
            calls: 0,
            faults: 0,
            listings: 0,
            reads: 0,
        }
    }

    /// Counts a call, and its fault if it is to fail. Returns whether it is.
    fn begin(&mut self) -> bool
        ensures fails { result ≡ fails_next self.old }
        ensures small { self.old.faults < 2 ^ 64 }
        ensures counted { self.new ≡ record self.old { calls = next_count self.old.calls; faults = faults_after (fails_next self.old) self.old.faults } }
    {
        self.calls = self.calls.saturating_add(1);
        let fails = self.fails.as_slice().contains(&self.calls);
        if fails {
            self.faults = self.faults.saturating_add(1);
        }
        fails
    }
}

impl<D: Desk> Desk for Faulty<D> {
    ghost use Rattle.std.specs.Prelude.{◌+◌};

    ghost tree = { D.tree };

    ghost faults = { λ s. s.faults + D.faults s.desk };

    ghost listings = { λ s. s.listings };

    ghost reads = { λ s. s.reads };

    ghost distinct = { D.distinct };

    ghost paths = { D.paths };

    fn list(&mut self, alloc: Global, layer: &Digest) -> Result<Option<Seq<ListEntry>>, DeskFault>
        requires room { self.old.listings < 2 ^ 63 + 2 ^ 62 }
        ensures entries { IfSome (D.tree layer.now) (λ t. IfOk result (λ found. found ≡ option_map (map listed) t)) }
        ensures cause { CausedBy (self.old.faults + D.faults self.old.desk) (self.new.faults + D.faults self.new.desk) (is_failed result) }
        ensures counted { self.new.listings ≡ self.old.listings + 1 }
        ensures unread { self.new.reads ≡ self.old.reads }
        ensures fails { self.new.fails ≡ self.old.fails }
        ensures call { self.new.calls ≡ next_count self.old.calls }
        ensures faults { self.new.faults ≡ faults_after (fails_next self.old) self.old.faults }
        ensures answer { MatchBool (fails_next self.old) (result ≡ Err DeskFault.Failed) (CausedBy (D.faults self.old.desk) (D.faults self.new.desk) (is_failed result)) }
        ensures inner { MatchBool (fails_next self.old) (self.new.desk ≡ self.old.desk) (D.listings self.new.desk ≡ D.listings self.old.desk + 1) }
    {
        let fails = self.begin();
        self.listings += 1;
        if fails {
            return Err(DeskFault::Failed);
        }
        self.desk.list(alloc, layer)
    }

    fn read(&mut self, alloc: Global, layer: &Digest, path: &RelPath, limit: u32) -> ReadResult
        ensures file { IfSome (D.tree layer.now) (λ t. IfOk result (λ found. found ≡ file_read (item_in t path.now) limit)) }
        ensures cause { CausedBy (self.old.faults + D.faults self.old.desk) (self.new.faults + D.faults self.new.desk) (is_failed result) }
        ensures same { self.new.listings ≡ self.old.listings }
        ensures reads { self.new.reads ≡ next_count self.old.reads }
        ensures fails { self.new.fails ≡ self.old.fails }
        ensures call { self.new.calls ≡ next_count self.old.calls }
        ensures faults { self.new.faults ≡ faults_after (fails_next self.old) self.old.faults }
        ensures answer { MatchBool (fails_next self.old) (result ≡ Err DeskFault.Failed) (CausedBy (D.faults self.old.desk) (D.faults self.new.desk) (is_failed result)) }
        ensures inner { MatchBool (fails_next self.old) (self.new.desk ≡ self.old.desk) (D.reads self.new.desk ≡ next_count (D.reads self.old.desk)) }
    {
        let fails = self.begin();
        self.reads = self.reads.saturating_add(1);
        if fails {
            return Err(DeskFault::Failed);
        }
        self.desk.read(alloc, layer, path, limit)
    }
}
