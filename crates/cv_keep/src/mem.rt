ghost use Rattle.std.specs.Prelude.{◌≡◌, ◌+◌, ◌-◌, ◌^◌, ◌≤◌, ◌++◌, [], ◌∷◌, ℕ, List, Some, length, take, drop, unwrap_or, option_map, is_none, IfOk, OnOk, OnErr};
ghost use Rattle.cv_seq.specs.Cause.{CausedBy};
ghost use Rattle.cv_keep.specs.Disk.{IsCut, IsDurable, IsSame, IsTorn, written};
ghost use Rattle.cv_keep.specs.Fault.{is_failed};
ghost use Rattle.cv_keep.specs.Memory.{MayLeave, MayLeaveSince, MemorySteps, Recorded, RefusedAs, after, contents_of, images_of, refused, refuses_next, run, start, state_of, syncs_after, syncs_of};
ghost use Rattle.cv_keep.specs.code.Spoil.{Spoils};
ghost use Rattle.cv_keep.specs.declared.call.Call.TheVariants.{Look, Write, Cut, Sync};

use crate::call::Call;
use crate::disk::Disk;
use crate::fault::DiskFault;
use cv_seq::{NoMemory, Seq};
use std::alloc::Global;
use std::marker::Model;

/// A file in memory, which keeps a record of its calls. They are numbered together from 1; those of a list, and all past the last
/// one, are refused. A call that runs out of memory is not recorded.
#[derive(Drop)]
pub struct MemDisk {
    alloc: Global,
    first: Seq<u8>,
    changed: Option<Seq<u8>>,
    calls: Vec<Call>,
    fails: Seq<u64>,
    last: u64,
    ghost replayed: { unwrap_or changed first ≡ (run (start first) calls.items).bytes },
}

impl Model for MemDisk {
    ghost use Rattle.cv_keep.specs.Memory.{MemoryDisk};

    ghost Value = { MemoryDisk };

    ghost view = { λ d. record { first = d.first; calls = d.calls.items; fails = d.fails; last = d.last } };
}

impl MemDisk {
    /// A file of these bytes, all of them on the disk. The allocator is for what will be recorded; none is taken yet.
    pub fn new(alloc: Global, bytes: Seq<u8>, fails: Seq<u64>, last: u64) -> MemDisk
        ensures { result ≡ record { first = bytes; calls = []; fails = fails; last = last } }
    {
        MemDisk {
            alloc,
            first: bytes,
            changed: None,
            calls: Vec::new(alloc),
            fails,
            last,
        }
    }

    /// What a read gives.
    pub fn bytes(&self) -> &[u8]
        ensures { result.now ≡ (state_of self.now).bytes }
    {
        match &self.changed {
            Some(changed) => changed.as_slice(),
            None => self.first.as_slice(),
        }
    }

    /// The calls so far, the first one first.
    pub fn calls(&self) -> &[Call]
        ensures { result.now ≡ self.now.calls }
    {
        self.calls.as_slice()
    }

    /// A disk as a crash now may leave it: each byte that was written since the last sync is 01. None of its calls is refused.
    pub fn crashed(&self) -> Result<MemDisk, NoMemory>
        ensures image { IfOk result (λ d. MayLeave (state_of self.now) d.first) }
        ensures fresh { IfOk result (λ d. (d.calls ≡ []) × (d.fails ≡ []) × (d.last ≡ 2 ^ 64 - 1)) }
    {
        let mut bytes = copy_of(self.alloc, &self.first)?;
        let mut image = copy_of(self.alloc, &self.first)?;
        for call in self.calls.iter() {
            spoil(self.alloc, call, &mut bytes, &mut image)?;
        }
        Ok(MemDisk::new(self.alloc, image, Seq::of(Vec::new(self.alloc)), u64::MAX))
    }

    /// Whether the next call is to be refused.
    fn refuses(&self) -> bool
        ensures { result ≡ refuses_next self.now }
    {
        let number = self.calls.len() as u64 + 1;
        self.fails.as_slice().contains(&number) || self.last < number
    }

    /// Records a call, after which a read gives `changed`, or what it gave before.
    #[tactic(auto, using(crate::proofs::MemoryLemmas::run_push))]
    fn note(&mut self, call: Call, changed: Option<Seq<u8>>) -> Result<(), NoMemory>
        requires { (after (state_of self.old) call).bytes ≡ unwrap_or changed (state_of self.old).bytes }
        ensures ok { OnOk result (self.new ≡ record self.old { calls = self.old.calls ++ call ∷ [] }) }
        ensures err { OnErr result (self.new ≡ self.old) }
    {
        self.calls.push(call)?;
        if changed.is_some() {
            self.changed = changed;
        }
        Ok(())
    }

    fn look(&mut self) -> Result<(), DiskFault>
        ensures recorded { Recorded Look self.old self.new result }
        ensures refused { RefusedAs (refuses_next self.old) result }
    {
        if self.refuses() {
            self.note(Call::Look(false), None)?;
            return Err(DiskFault::Failed);
        }
        self.note(Call::Look(true), None)?;
        Ok(())
    }

    fn write(&mut self, at: u64, bytes: &[u8]) -> Result<(), DiskFault>
        requires { at ≤ length (state_of self.old).bytes }
        ensures recorded { Recorded (Write at bytes.now) self.old self.new result }
        ensures refused { RefusedAs (refuses_next self.old) result }
    {
        let copy = Seq::of(bytes.to_vec(self.alloc)?);
        if self.refuses() {
            self.note(Call::Write(at, copy, false), None)?;
            return Err(DiskFault::Failed);
        }
        let changed = spliced(self.alloc, self.bytes(), at as usize, bytes)?;
        self.note(Call::Write(at, copy, true), Some(changed))?;
        Ok(())
    }

    fn shorten(&mut self, len: u64) -> Result<(), DiskFault>
        requires { len ≤ length (state_of self.old).bytes }
        ensures recorded { Recorded (Cut len) self.old self.new result }
        ensures refused { RefusedAs (refuses_next self.old) result }
    {
        if self.refuses() {
            self.note(Call::Cut(len, false), None)?;
            return Err(DiskFault::Failed);
        }
        let changed = Seq::of(self.bytes()[..len as usize].to_vec(self.alloc)?);
        self.note(Call::Cut(len, true), Some(changed))?;
        Ok(())
    }

    fn flush(&mut self) -> Result<(), DiskFault>
        ensures recorded { Recorded Sync self.old self.new result }
        ensures refused { RefusedAs (refuses_next self.old) result }
    {
        if self.refuses() {
            self.note(Call::Sync(false), None)?;
            return Err(DiskFault::Failed);
        }
        self.note(Call::Sync(true), None)?;
        Ok(())
    }
}

/// A copy of `old` with `bytes` written at a place.
#[tactic(auto, using(crate::proofs::MemoryLemmas::spliced_is))]
fn spliced(alloc: Global, old: &[u8], at: usize, bytes: &[u8]) -> Result<Seq<u8>, NoMemory>
    ensures { IfOk result (λ new. new ≡ written at bytes.now old.now) }
{
    let (front, rest) = old.split_at(old.len().min(at));
    let (_, rest) = rest.split_at(rest.len().min(bytes.len()));
    let mut new = front.to_vec(alloc)?;
    new.extend_from_slice(bytes)?;
    new.extend_from_slice(rest)?;
    Ok(Seq::of(new))
}

/// A copy of bytes.
fn copy_of(alloc: Global, bytes: &Seq<u8>) -> Result<Seq<u8>, NoMemory>
    ensures { IfOk result (λ copy. copy ≡ bytes.now) }
{
    Ok(Seq::of(bytes.as_slice().to_vec(alloc)?))
}

/// What a read gives after one call more, and an image that a crash may then leave.
fn spoil(
    alloc: Global,
    call: &Call,
    bytes: &mut Seq<u8>,
    image: &mut Seq<u8>,
) -> Result<(), NoMemory>
    ensures { OnOk result (Spoils call.now bytes.old image.old bytes.new image.new) }
{
    match call {
        Call::Look(_) | Call::Cut(_, false) | Call::Sync(false) => Ok(()),
        Call::Sync(true) => {
            *image = copy_of(alloc, bytes)?;
            Ok(())
        }
        Call::Cut(len, true) => {
            shorten(alloc, bytes, *len as usize)?;
            shorten(alloc, image, *len as usize)
        }
        Call::Write(at, written, false) => tear(
            alloc,
            image,
            *at as usize,
            written.as_slice().len(),
        ),
        Call::Write(at, written, true) => {
            tear(alloc, image, *at as usize, written.as_slice().len())?;
            *bytes = spliced(alloc, bytes.as_slice(), *at as usize, written.as_slice())?;
            Ok(())
        }
    }
}

/// Writes 01 on each byte of a range.
#[tactic(auto, using(crate::proofs::MemoryLemmas::torn_ones))]
fn tear(alloc: Global, image: &mut Seq<u8>, at: usize, len: usize) -> Result<(), NoMemory>
    ensures { OnOk result (IsTorn at len image.old image.new) }
{
    let ones = vec![in alloc; 1u8; len]?;
    *image = spliced(alloc, image.as_slice(), at, ones.as_slice())?;
    Ok(())
}

/// Keeps the first bytes.
fn shorten(alloc: Global, bytes: &mut Seq<u8>, len: usize) -> Result<(), NoMemory>
    ensures { OnOk result (bytes.new ≡ take len bytes.old) }
{
    let (front, _) = bytes.as_slice().split_at(bytes.as_slice().len().min(len));
    *bytes = Seq::of(front.to_vec(alloc)?);
    Ok(())
}

impl Disk for MemDisk {
    ghost use Rattle.cv_keep.specs.code.MemoryLaws.{left_earlier, left_now};

    ghost contents = { λ d. Some (run (start d.first) d.calls).bytes };

    ghost moment = { λ d. length d.calls };

    ghost may_leave = { λ d t image. MayLeaveSince d.first d.calls t image };

    ghost syncs = { λ d. syncs_after 0 d.calls };

    ghost faults = { λ d. refused d.calls };

    ghost earlier = { λ d t u image le left. left_earlier d.first d.calls t u image le left };

    ghost reads = { λ d. left_now d.first d.calls };

    #[tactic(auto, using(crate::proofs::MemoryLemmas::look_contents, crate::proofs::MemoryLemmas::look_syncs, crate::proofs::MemoryLemmas::look_crash, crate::proofs::MemoryLemmas::look_cause))]
    fn len(&mut self) -> Result<u64, DiskFault>
        ensures length { IfOk result (λ len. len ≡ length (state_of self.old).bytes) }
        ensures contents { contents_of self.new ≡ contents_of self.old }
        ensures syncs { syncs_of self.new ≡ syncs_of self.old }
        ensures crash { MemorySteps IsSame self.old self.new }
        ensures cause { CausedBy (refused self.old.calls) (refused self.new.calls) (is_failed result) }
        ensures recorded { Recorded Look self.old self.new result }
        ensures refused { RefusedAs (refuses_next self.old) result }
    {
        self.look()?;
        Ok(self.bytes().len() as u64)
    }

    #[tactic(auto, using(crate::proofs::MemoryLemmas::look_contents, crate::proofs::MemoryLemmas::look_syncs, crate::proofs::MemoryLemmas::look_crash, crate::proofs::MemoryLemmas::look_cause))]
    fn read(&mut self, at: u64, buf: &mut [u8]) -> Result<(), DiskFault>
        requires inside { at + length buf.old ≤ length (state_of self.old).bytes }
        ensures read { OnOk result (buf.new ≡ take (length buf.old) (drop at (state_of self.old).bytes)) }
        ensures contents { contents_of self.new ≡ contents_of self.old }
        ensures syncs { syncs_of self.new ≡ syncs_of self.old }
        ensures crash { MemorySteps IsSame self.old self.new }
        ensures cause { CausedBy (refused self.old.calls) (refused self.new.calls) (is_failed result) }
        ensures recorded { Recorded Look self.old self.new result }
        ensures refused { RefusedAs (refuses_next self.old) result }
    {
        self.look()?;
        let (_, rest) = self.bytes().split_at(at as usize);
        buf.copy_from_slice(&rest[..buf.len()]);
        Ok(())
    }

    #[tactic(auto, using(crate::proofs::MemoryLemmas::write_contents, crate::proofs::MemoryLemmas::write_syncs, crate::proofs::MemoryLemmas::write_crash, crate::proofs::MemoryLemmas::write_cause))]
    fn write_at(&mut self, at: u64, bytes: &[u8]) -> Result<(), DiskFault>
        requires inside { at ≤ length (state_of self.old).bytes }
        ensures written { OnOk result (contents_of self.new ≡ option_map (written at bytes.now) (contents_of self.old)) }
        ensures known { is_none (contents_of self.new) ≡ is_none (contents_of self.old) }
        ensures syncs { syncs_of self.new ≡ syncs_of self.old }
        ensures crash { MemorySteps (IsTorn at (length bytes.now)) self.old self.new }
        ensures cause { CausedBy (refused self.old.calls) (refused self.new.calls) (is_failed result) }
        ensures recorded { Recorded (Write at bytes.now) self.old self.new result }
        ensures refused { RefusedAs (refuses_next self.old) result }
    {
        self.write(at, bytes)
    }

    #[tactic(auto, using(crate::proofs::MemoryLemmas::cut_contents, crate::proofs::MemoryLemmas::cut_syncs, crate::proofs::MemoryLemmas::cut_crash, crate::proofs::MemoryLemmas::cut_cause))]
    fn cut(&mut self, len: u64) -> Result<(), DiskFault>
        requires inside { len ≤ length (state_of self.old).bytes }
        ensures cut { OnOk result (contents_of self.new ≡ option_map (take len) (contents_of self.old)) }
        ensures known { is_none (contents_of self.new) ≡ is_none (contents_of self.old) }
        ensures syncs { syncs_of self.new ≡ syncs_of self.old }
        ensures crash { MemorySteps (IsCut len) self.old self.new }
        ensures cause { CausedBy (refused self.old.calls) (refused self.new.calls) (is_failed result) }
        ensures recorded { Recorded (Cut len) self.old self.new result }
        ensures refused { RefusedAs (refuses_next self.old) result }
    {
        self.shorten(len)
    }

    #[tactic(auto, using(crate::proofs::MemoryLemmas::sync_durable, crate::proofs::MemoryLemmas::sync_contents, crate::proofs::MemoryLemmas::sync_syncs, crate::proofs::MemoryLemmas::not_synced, crate::proofs::MemoryLemmas::sync_crash, crate::proofs::MemoryLemmas::sync_cause))]
    fn sync(&mut self) -> Result<(), DiskFault>
        ensures durable { OnOk result (IsDurable (state_of self.old).bytes (images_of self.new)) }
        ensures contents { contents_of self.new ≡ contents_of self.old }
        ensures syncs { OnOk result (syncs_of self.new ≡ syncs_of self.old ++ length self.new.calls ∷ []) }
        ensures not_synced { OnErr result (syncs_of self.new ≡ syncs_of self.old) }
        ensures crash { MemorySteps IsSame self.old self.new }
        ensures cause { CausedBy (refused self.old.calls) (refused self.new.calls) (is_failed result) }
        ensures recorded { Recorded Sync self.old self.new result }
        ensures refused { RefusedAs (refuses_next self.old) result }
    {
        self.flush()
    }
}
