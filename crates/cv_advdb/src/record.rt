ghost use Rattle.std.specs.Prelude.{◌≡◌, IfOk};
ghost use Rattle.cv_match.specs.Prepared.{prepared_for};
ghost use Rattle.cv_advdb.specs.Feeds.{by_id};

use cv_base::{Advisory, NoMemory, PackageKind};
use cv_match::{PreparedForKinds, ReadyAdvisory, prepare_for_kinds};
use std::alloc::{AllocError, Global};
use std::cmp::Ordering;
use std::collections::BTreeSet;
use std::marker::Model;
use std::sync::Arc;

/// A record with what is prepared of it, which a clone shares. Contracts see the record. It is compared by its id alone.
#[derive(Drop)]
pub struct StoredRecord {
    inner: Arc<PreparedRecord, Global>,
}

impl Model for StoredRecord {
    ghost use Rattle.std.specs.Arc.{arc_value};
    ghost use Rattle.cv_base.specs.declared.advisory.Advisory.{Advisory};

    ghost Value = { Advisory };

    ghost view = { λ r. arc_value r.inner };
}

/// What the owners of a stored record share.
#[derive(Drop)]
pub struct PreparedRecord {
    advisory: Advisory,
    prepared: PreparedForKinds,
}

impl Model for PreparedRecord {
    ghost use Rattle.std.specs.Prelude.{◌≡◌};
    ghost use Rattle.cv_base.specs.declared.advisory.Advisory.{Advisory};

    ghost Value = { Advisory };

    ghost view = { λ r. r.advisory };

    ghost invariant = { λ r. r.prepared ≡ r.advisory };
}

impl PreparedRecord {
    fn advisory(&self) -> &Advisory
        ensures { result.now ≡ self.now }
    {
        &self.advisory
    }

    fn prepared_for(&self, kind: PackageKind) -> &ReadyAdvisory
        ensures { result.now ≡ prepared_for kind self.now }
    {
        self.prepared.for_kind(kind)
    }
}

impl StoredRecord {
    /// Prepares a record for every kind of package.
    pub fn of(alloc: Global, advisory: Advisory) -> Result<StoredRecord, NoMemory>
        ensures { IfOk result (λ stored. stored ≡ advisory) }
    {
        let record = prepare(alloc, advisory)?;
        Ok(StoredRecord {
            inner: Arc::new(alloc, record)?,
        })
    }

    /// The record.
    pub fn advisory(&self) -> &Advisory
        ensures { result.now ≡ self.now }
    {
        self.inner.advisory()
    }

    /// The record as it is prepared for this kind.
    pub fn prepared_for(&self, kind: PackageKind) -> &ReadyAdvisory
        ensures { result.now ≡ prepared_for kind self.now }
    {
        self.inner.prepared_for(kind)
    }
}

/// A record beside what is prepared of it.
fn prepare(alloc: Global, advisory: Advisory) -> Result<PreparedRecord, NoMemory>
    ensures { IfOk result (λ prepared. prepared ≡ advisory) }
{
    let prepared = prepare_for_kinds(alloc, &advisory)?;
    Ok(PreparedRecord { advisory, prepared })
}

/// A clone is one more owner. It takes no memory, and fails only at the last value of the count of owners.
impl Clone for StoredRecord {
    ghost is_clone = { λ x y. y ≡ x };

    fn clone(&self) -> Result<StoredRecord, AllocError> {
        Ok(StoredRecord {
            inner: self.inner.clone()?,
        })
    }
}

impl PartialEq for StoredRecord {
    ghost use Rattle.std.specs.Cmp.{eq_by_cmp_equiv, partial_equiv_from_equiv};
    ghost use Rattle.std.specs.Ordering.{eq_by_cmp};
    ghost use Rattle.cv_advdb.specs.Feeds.{id_cmp, id_total};

    ghost eq = { eq_by_cmp id_cmp };

    ghost laws = { partial_equiv_from_equiv (eq_by_cmp_equiv id_total) };

    fn eq(&self, other: &StoredRecord) -> bool {
        self.cmp(other).is_eq()
    }
}

impl Eq for StoredRecord {
    ghost use Rattle.std.specs.Cmp.{eq_by_cmp_equiv};
    ghost use Rattle.cv_advdb.specs.Feeds.{id_total};

    ghost laws = { eq_by_cmp_equiv id_total };
}

impl PartialOrd for StoredRecord {
    ghost use Rattle.std.specs.Prelude.{Some, refl};
    ghost use Rattle.std.specs.Cmp.{partial_order_from_agreeing_total};
    ghost use Rattle.cv_advdb.specs.Feeds.{id_cmp, id_total};

    ghost partial_cmp = { λ x y. Some (id_cmp x y) };

    ghost laws = { partial_order_from_agreeing_total id_cmp id_total (λ x y. refl) (λ x y. refl) };

    fn partial_cmp(&self, other: &StoredRecord) -> Option<Ordering> {
        Some(self.cmp(other))
    }
}

impl Ord for StoredRecord {
    ghost use Rattle.std.specs.Prelude.{refl};
    ghost use Rattle.cv_advdb.specs.Feeds.{id_cmp, id_total};

    ghost cmp = { id_cmp };

    ghost total = { id_total };

    ghost matches_partial_cmp = { λ x y. refl };

    ghost matches_eq = { λ x y. refl };

    fn cmp(&self, other: &StoredRecord) -> Ordering {
        self.advisory().id.cmp(&other.advisory().id)
    }
}

/// Records in the order of their ids. Of those that have one id the last one stays. The time is n log n in the records.
#[tactic(auto, using(cv_base::proofs::Ordered::put_last, cv_base::proofs::Ordered::put_none))]
pub fn in_id_order(alloc: Global, mut records: Vec<Advisory>) -> Result<Vec<StoredRecord>, NoMemory>
    ensures { IfOk result (λ stored. stored.items ≡ by_id records.items) }
{
    let mut sorted = BTreeSet::new(alloc);
    while let Some(record) = records.pop() {
        sorted.insert(StoredRecord::of(alloc, record)?)?;
    }
    let mut stored = Vec::new(alloc);
    for record in sorted {
        stored.push(record)?;
    }
    Ok(stored)
}
