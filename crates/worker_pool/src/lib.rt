//! Workers that run a graph: threads that steal work from each other, or virtual ones, which a schedule turns.
#![tactic(auto)]

mod crew;
mod end;
mod joining;
mod laws;
mod pool;
mod run;
mod serving;
mod slot;
mod threads;
mod worker;

pub use end::{Finished, RunEnd, Why};
pub use run::run_virtual;
pub use threads::run_graph;
