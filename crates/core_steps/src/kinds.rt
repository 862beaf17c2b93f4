use core_state::Job;
use graph_model::Cause;

/// A step of one seat of a table, with what its call is passed.
#[derive(Clone, Copy, Drop)]
pub enum Kind {
    Claim {
        row: u32,
        key: u64,
    },
    Look {
        row: u32,
    },
    LoadPending,
    LoadStop,
    Post {
        row: u32,
        job: Job,
        life: u32,
    },
    Take {
        row: u32,
        job: Job,
    },
    Register {
        row: u32,
        port: u32,
    },
    Spend {
        row: u32,
        place: u32,
    },
    Buy,
    DropCredit,
    Stop,
    LoadDescriptor {
        row: u32,
    },
    LoadNotify {
        row: u32,
        word: u32,
    },
    LoadRecovery {
        row: u32,
    },
    Close {
        row: u32,
        life: u32,
        word: u32,
        seen: u64,
    },
    RenewNotify {
        row: u32,
        word: u32,
    },
    RenewDescriptor {
        row: u32,
    },
    Finish {
        row: u32,
    },
    StrikeDescriptor {
        row: u32,
    },
    StrikeNotify {
        row: u32,
        word: u32,
    },
    Elect {
        row: u32,
        life: u32,
        cause: Cause,
    },
    /// The turn of a block that another has.
    RefuseTurn {
        block: u32,
    },
}

/// The word that a step is on: its place in the list of words, and the number that it holds before.
#[derive(Clone, Copy, Drop)]
pub struct Touched {
    pub at: usize,
    pub found: u64,
}

/// A step of one seat that takes a block or gives one, with what its call is passed besides the block.
#[derive(Clone, Copy, Drop)]
pub enum BlockKind {
    TakeTurn,
    GiveRead,
    GiveWritten { key: u64, life: u32 },
    GiveStruck { key: u64, life: u32 },
}
