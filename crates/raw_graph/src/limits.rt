//! The limits of graph files, once for all code. What they mean stands in `specs/Limits` and in the format; messages have
//! their digits.

pub use formula_text::FORMULA_BYTES;
pub use graph_model::MOST_STRIKES;

/// The longest file.
pub const INPUT_BYTES: usize = 67_108_864;

/// The most tasks of a file.
pub const MOST_TASKS: usize = 16_384;

/// The most predecessors of a task.
pub const MOST_PLACES: usize = 40;

/// The most successor edges of a task, the hidden root's on the sink counted.
pub const MOST_EDGES: usize = 640;

/// The greatest key.
pub const MOST_KEY: u64 = 9_223_372_036_854_775_807;

/// The greatest version of a block: each has a writer of its own.
pub const MOST_VERSION: u64 = 16_384;

/// The last life that a strike may name.
pub const MOST_LIFE: u64 = 65_535;

/// The last notify word that a strike may name.
pub const MOST_WORD: u64 = 15;
