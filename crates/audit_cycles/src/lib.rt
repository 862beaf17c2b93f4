//! What leads to a task, a topological order of the tasks, and the least task on a cycle.
#![tactic(auto)]

mod check;
mod components;
mod cycles;
mod levels;
mod search;

pub use check::check_cycles;
pub use search::ancestors;
