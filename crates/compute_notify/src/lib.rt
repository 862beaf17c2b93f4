//! The work of a task: exploring, computing, closing and telling, one step a turn.
#![tactic(auto)]

mod close;
mod compute;
mod duty;
mod explore;
mod item;
mod look;
mod notify;
mod paying;
mod replacing;
mod run;
mod scratch;
mod strikes;
mod task;

pub use run::Run;
pub use scratch::Scratch;
pub use task::Task;
