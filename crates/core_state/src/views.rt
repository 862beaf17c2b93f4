//! What one seat knows and holds. No value of `View`, `Stack` or `Item` is made: a clause reads an array as a list, of any length.
use super::block::BlockCells;
use super::job::Job;
use graph_model::{Cause, Record};

/// A word of a row that shows a life.
#[derive(Clone, Copy, Drop)]
pub enum Word {
    Descriptor,
    Notify { word: u32 },
    Recovery,
}

/// What is left to do, the topmost first in its stack.
pub enum Item {
    /// The places from this one on, and then the self place.
    Explore {
        key: u64,
        life: u64,
        place: u64,
    },
    /// So many inputs were read; whether the descriptor was loaded, and whether the result was made.
    Compute {
        key: u64,
        life: u64,
        loaded: bool,
        read: u64,
        made: bool,
    },
    /// The words from this one on are to be closed.
    Close {
        key: u64,
        life: u64,
        word: u64,
    },
    /// These ports of a closed word are to be told.
    Notify {
        key: u64,
        life: u64,
        word: u64,
        ports: [u64; 0],
    },
    /// The life is to be replaced. Whether the end of another's replacement is awaited.
    Suspect {
        key: u64,
        life: u64,
        cause: Cause,
        waits: bool,
    },
    /// So many words were renewed: the notify words, then the descriptor.
    Renew {
        key: u64,
        life: u64,
        done: u64,
    },
    /// The successors at these ports are to be entered again.
    Reenter {
        key: u64,
        life: u64,
        ports: [u64; 0],
    },
    /// A job that this view made ready is to be posted.
    Owe {
        key: u64,
        job: Job,
        life: u64,
    },
}

/// The work that one credit pays for, and the job with which it came.
pub struct Stack {
    pub job: Job,
    pub key: u64,
    pub life: u64,
    pub items: [Item; 0],
}

/// A fact that stays true.
pub enum Known {
    /// Pending was seen at 0.
    Idle,
    /// Stop was seen at 1.
    Stopped,
    /// This view set stop.
    Stops,
    Row { row: u64, key: u64 },
    /// The word showed this life.
    Life { key: u64, word: Word, life: u64 },
    /// The word showed this life and the mark.
    Mark { key: u64, word: Word, life: u64 },
    /// The notify word was closed in this life.
    Closed { key: u64, life: u64, word: u64 },
    /// The port was registered in this life.
    Waits { key: u64, life: u64, port: u64 },
}

/// A job of one life of which nothing is left to do.
pub struct Ended {
    pub job: Job,
    pub key: u64,
    pub life: u64,
}

/// A block in hand, as it was taken.
pub struct Hand {
    pub block: u64,
    pub held: BlockCells,
}

/// What one seat holds and knows.
pub struct View {
    /// The share of this seat in the table: all seats together have a fixed number of parts, and a seat that was joined away has none.
    pub parts: u64,
    /// The stack that came last stands first.
    pub stacks: [Stack; 0],
    pub spare: u64,
    /// The newest first; those of the root stand here too.
    pub records: [Record; 0],
    /// The block that was taken last stands first.
    pub hands: [Hand; 0],
    /// The strikes of the plan that were made, by their places in the plan.
    pub strikes: [u64; 0],
    pub ended: [Ended; 0],
    pub known: [Known; 0],
}
