//! The words of a command line, and the command that they stand for.
#![tactic(auto)]

mod building;
mod by_clap;
mod command;
mod given;
mod numbers;
mod options;
mod reading;
mod spelling;

pub use by_clap::table_matches;
pub use command::Command;
pub use reading::command_of;

#[cfg(test)]
mod tests;
