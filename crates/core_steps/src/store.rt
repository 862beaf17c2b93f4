//! The records of one worker.
use graph_model::Record;
use std::alloc::{AllocError, Global};
use std::marker::Model;

/// Records in order, and room for more.
#[derive(Drop)]
pub struct Store {
    records: Vec<Record>,
}

impl Model for Store {
    ghost use Rattle.std.specs.Prelude.{◌-◌, vec_len, vec_capacity};
    ghost use Rattle.core_steps.specs.Table.{Stored};

    ghost Value = { Stored };

    ghost view = { λ s. record { records = s.records.items; room = vec_capacity s.records - vec_len s.records } };
}

impl Store {
    ghost use Rattle.std.specs.Prelude.{◌≡◌, ◌≤◌, ◌<◌, ◌+◌, ◌++◌, [], length, OnOk};
    ghost use Rattle.core_steps.specs.Table.{with_record};

    pub fn new(alloc: Global) -> Store
        ensures { result.records ≡ [] }
    {
        Store {
            records: Vec::new(alloc),
        }
    }

    /// Makes room for so many records.
    pub fn reserve(&mut self, n: usize) -> Result<(), AllocError>
        ensures records { self.new.records ≡ self.old.records }
        ensures room { self.old.room ≤ self.new.room }
        ensures ok { OnOk result (n ≤ self.new.room) }
    {
        self.records.reserve(n)
    }

    pub fn note(&mut self, entry: Record)
        requires { 0 < self.old.room }
        ensures { self.new ≡ with_record self.old entry }
    {
        self.records.push_reserved(entry);
    }

    /// Notes these records in the room that there is.
    pub fn note_all(&mut self, records: &[Record])
        requires { length records.now ≤ self.old.room }
        ensures records { self.new.records ≡ self.old.records ++ records.now }
        ensures room { self.old.room ≤ self.new.room + length records.now }
    {
        let _ = self.records.extend_from_slice(records);
    }

    /// A store with these records.
    pub fn of(records: Vec<Record>) -> Store
        ensures { result.records ≡ records.items }
    {
        Store { records }
    }

    pub fn as_slice(&self) -> &[Record]
        ensures { result.now ≡ self.now.records }
    {
        self.records.as_slice()
    }

    pub fn into_records(self) -> Vec<Record>
        ensures { result.items ≡ self.records }
    {
        let Store { records } = self;
        records
    }
}
