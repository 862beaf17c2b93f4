//! What a run hands back.
use graph_model::{Cause, Cells, Key, Record};

/// A run that gave the sink's value.
#[derive(Debug, Drop)]
pub struct Finished<Ke> {
    pub value: Cells,
    pub records: Vec<Record>,
    pub kernels: Vec<Ke>,
}

/// A run that ended without the sink's value.
#[derive(Debug, Drop)]
pub struct RunEnd<Ke> {
    pub why: Why,
    pub records: Vec<Record>,
    pub kernels: Vec<Ke>,
}

/// Why a run ended without the sink's value.
#[derive(Clone, Copy, Debug, PartialEq, Eq)]
pub enum Why {
    /// Room was refused. Records may be missing.
    OutOfMemory,
    /// The task may have no further life. Where it is the root that may have none, the sink is named.
    LivesSpent { key: Key, life: u32, cause: Cause },
    /// The turns were over, and so many stacks, spare credits and posted jobs were left.
    ScheduleShort { pending: u64 },
}
