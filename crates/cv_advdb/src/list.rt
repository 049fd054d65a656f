ghost use Rattle.std.specs.Prelude.{◌≡◌, ◌++◌, ◌∷◌, [], OnOk};

use crate::record::StoredRecord;
use cv_base::NoMemory;
use std::alloc::{AllocError, Global};
use std::marker::Model;

/// The records under one name. Contracts see them as a list.
#[derive(Drop)]
pub struct RecordList {
    records: Vec<StoredRecord>,
}

impl Model for RecordList {
    ghost use Rattle.std.specs.Prelude.{List};
    ghost use Rattle.cv_base.specs.declared.advisory.Advisory.{Advisory};

    ghost Value = { List Advisory };

    ghost view = { λ l. l.records.items };
}

impl RecordList {
    /// An empty list.
    pub fn new(alloc: Global) -> RecordList
        ensures { result ≡ [] }
    {
        RecordList {
            records: Vec::new(alloc),
        }
    }

    /// A list of these records.
    pub fn of(records: Vec<StoredRecord>) -> RecordList
        ensures { result ≡ records.items }
    {
        RecordList { records }
    }

    /// Appends a record.
    pub fn push(&mut self, stored: StoredRecord) -> Result<(), NoMemory>
        ensures { OnOk result (self.new ≡ self.old ++ stored ∷ []) }
    {
        self.records.push(stored)?;
        Ok(())
    }

    /// The records, the first one first.
    pub fn as_slice(&self) -> &[StoredRecord]
        ensures { result.now ≡ self.now }
    {
        self.records.as_slice()
    }
}

/// A clone shares the records with its source.
impl Clone for RecordList {
    ghost is_clone = { λ x y. y ≡ x };

    fn clone(&self) -> Result<RecordList, AllocError> {
        Ok(RecordList {
            records: self.records.clone()?,
        })
    }
}
