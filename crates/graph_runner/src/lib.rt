//! The commands that run, check or print a graph.
#![tactic(auto)]

mod command;
mod ending;
mod finish;
mod kernel;
mod load;
mod messages;
mod paths;
mod probed;
mod runs;
mod serve;
mod terms;
mod workers;

pub use command::{End, check_command, run_command};
pub use ending::Ending;
pub use finish::CheckEnd;
pub use kernel::FormulaKernel;
