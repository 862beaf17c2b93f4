//! Graphs as files state them, and their limits.
#![tactic(auto)]

mod limits;
mod raw;

pub use limits::{
    FORMULA_BYTES, INPUT_BYTES, MOST_EDGES, MOST_KEY, MOST_LIFE, MOST_PLACES, MOST_STRIKES,
    MOST_TASKS, MOST_VERSION, MOST_WORD,
};
pub use raw::{RawGraph, RawTask};
