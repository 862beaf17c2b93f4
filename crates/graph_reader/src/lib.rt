//! Graph files.
#![tactic(auto)]

mod data;
mod fault;
mod fields;
mod kinds;
mod names;
mod read;
mod shown;
mod strikes;
mod tasks;
mod write;

pub use fault::TextFault;
pub use raw_graph::{RawGraph, RawTask};
pub use read::read_graph;
pub use write::write_graph;
