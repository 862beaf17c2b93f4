use graph_model::Found;

/// What a reading met: the version that was wanted, another thing in its place, or a block that another seat has.
#[derive(Clone, Copy, Debug, PartialEq, Eq)]
pub enum Read {
    Good,
    Bad { found: Found },
    Busy,
}

/// What a writing met.
#[derive(Clone, Copy, Debug, PartialEq, Eq)]
pub enum Put {
    Done,
    Busy,
}

/// What a strike on a block met. It misses where the block holds another version, or was struck.
#[derive(Clone, Copy, Debug, PartialEq, Eq)]
pub enum Blow {
    Landed,
    Missed,
    Busy,
}
