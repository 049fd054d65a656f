ghost use Rattle.std.specs.Prelude.{◌≡◌, ◌+◌, ◌<◌, ◌≤◌, ◌^◌, IfOk, IfSome, map, true};
ghost use Rattle.std.specs.Option.{option_map};
ghost use Rattle.cv_seq.specs.Cause.{CausedBy, next_count};
ghost use Rattle.cv_desk.specs.Fault.{is_failed};
ghost use Rattle.cv_desk_wrappers.specs.Gate.{Gated, gated, has_passed};
ghost use Rattle.cv_desk.specs.Stored.{file_read, item_in, listed};

use cv_base::{Digest, ListEntry, NoMemory, RelPath, Seq};
use cv_desk::{Desk, DeskFault, ReadResult};
use std::alloc::Global;
use std::marker::Model;
use std::sync::Arc;
use std::sync::atomic::AtomicU64;
use std::sync::atomic::Ordering::SeqCst;
use std::thread::yield_now;

/// The most turns that a listing takes until the count reaches its desk's goal.
const TURNS: u32 = 10_000_000;

/// One of two desks that share a count of begun listings, and each of which has a goal. A listing raises the count, then lets
/// other threads run until the count is at least the goal, at most 10,000,000 times, and then is the inner desk's own. Reads
/// are the inner desk's own. A count of 2^64 - 1 stays.
#[derive(Drop)]
pub struct GateDesk<D: Desk> {
    desk: D,
    begun: Arc<AtomicU64>,
    goal: u64,
    listings: u64,
    reached: u64,
}

impl<D: Desk> Model for GateDesk<D> {
    ghost use Rattle.std.specs.Prelude.{◌≡◌, ◌≤◌};
    ghost use Rattle.cv_desk_wrappers.specs.Gate.{Gated};

    ghost Value = { Gated D };

    ghost view = { λ s. record { desk = s.desk; goal = s.goal; listings = s.listings; reached = s.reached } };

    ghost invariant = { λ s. (D.listings s.desk ≡ s.listings) × (s.reached ≤ s.listings) };
}

impl<D: Desk + Drop> GateDesk<D> {
    /// Two desks that share a count, which begins at 0. Without memory for it both desks are dropped.
    pub fn pair(
        alloc: Global,
        first: D,
        second: D,
        first_goal: u64,
        second_goal: u64,
    ) -> Result<(GateDesk<D>, GateDesk<D>), NoMemory>
        requires first { D.listings first ≡ 0 }
        requires second { D.listings second ≡ 0 }
        ensures made { IfOk result (λ pair. (pair.0 ≡ gated first first_goal) × (pair.1 ≡ gated second second_goal)) }
        ensures faults { IfOk result (λ pair. (⟦<GateDesk<D> as Desk>⟧.faults pair.0 ≡ D.faults first) × (⟦<GateDesk<D> as Desk>⟧.faults pair.1 ≡ D.faults second)) }
        ensures listings { IfOk result (λ pair. (⟦<GateDesk<D> as Desk>⟧.listings pair.0 ≡ 0) × (⟦<GateDesk<D> as Desk>⟧.listings pair.1 ≡ 0)) }
        ensures reads { IfOk result (λ pair. (⟦<GateDesk<D> as Desk>⟧.reads pair.0 ≡ D.reads first) × (⟦<GateDesk<D> as Desk>⟧.reads pair.1 ≡ D.reads second)) }
    {
        let begun = Arc::new(alloc, AtomicU64::new(0))?;
        let shared = begun.clone()?;
        Ok((
            GateDesk::over(first, begun, first_goal),
            GateDesk::over(second, shared, second_goal),
        ))
    }
}

impl<D: Desk> GateDesk<D> {
    fn over(desk: D, begun: Arc<AtomicU64>, goal: u64) -> GateDesk<D>
        requires { D.listings desk ≡ 0 }
        ensures { result ≡ gated desk goal }
    {
        GateDesk {
            desk,
            begun,
            goal,
            listings: 0,
            reached: 0,
        }
    }

    /// Whether this desk made a listing, and each of its listings saw the count reach the goal.
    pub fn passed(&self) -> bool
        ensures { result ≡ has_passed self.now }
    {
        self.listings > 0 && self.reached == self.listings
    }
}

/// Raises the count of begun listings, and takes turns until it is at least the goal. Returns whether it was seen so.
fn is_reached(begun: &AtomicU64, goal: u64) -> bool
    ensures { goal ≡ 0 → result ≡ true }
{
    let _ = begun.fetch_update(SeqCst, SeqCst, |count| count.checked_add(1));
    for _ in 0..TURNS {
        if begun.load(SeqCst) >= goal {
            return true;
        }
        yield_now();
    }
    begun.load(SeqCst) >= goal
}

impl<D: Desk> Desk for GateDesk<D> {
    ghost tree = { D.tree };

    ghost faults = { λ s. D.faults s.desk };

    ghost listings = { λ s. s.listings };

    ghost reads = { λ s. D.reads s.desk };

    ghost distinct = { D.distinct };

    ghost paths = { D.paths };

    fn list(&mut self, alloc: Global, layer: &Digest) -> Result<Option<Seq<ListEntry>>, DeskFault>
        requires room { self.old.listings < 2 ^ 63 + 2 ^ 62 }
        ensures entries { IfSome (D.tree layer.now) (λ t. IfOk result (λ found. found ≡ option_map (map listed) t)) }
        ensures cause { CausedBy (D.faults self.old.desk) (D.faults self.new.desk) (is_failed result) }
        ensures counted { self.new.listings ≡ self.old.listings + 1 }
        ensures unread { D.reads self.new.desk ≡ D.reads self.old.desk }
        ensures goal { self.new.goal ≡ self.old.goal }
        ensures at_least { self.old.reached ≤ self.new.reached }
        ensures at_most { self.new.reached ≤ self.old.reached + 1 }
        ensures no_goal { self.old.goal ≡ 0 → self.new.reached ≡ self.old.reached + 1 }
    {
        self.listings += 1;
        if is_reached(&self.begun, self.goal) {
            self.reached += 1;
        }
        self.desk.list(alloc, layer)
    }

    fn read(&mut self, alloc: Global, layer: &Digest, path: &RelPath, limit: u32) -> ReadResult
        ensures file { IfSome (D.tree layer.now) (λ t. IfOk result (λ found. found ≡ file_read (item_in t path.now) limit)) }
        ensures cause { CausedBy (D.faults self.old.desk) (D.faults self.new.desk) (is_failed result) }
        ensures same { self.new.listings ≡ self.old.listings }
        ensures reads { D.reads self.new.desk ≡ next_count (D.reads self.old.desk) }
        ensures goal { self.new.goal ≡ self.old.goal }
        ensures reached { self.new.reached ≡ self.old.reached }
    {
        self.desk.read(alloc, layer, path, limit)
    }
}
