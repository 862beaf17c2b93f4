//! The shared table: the steps of the core on atomic words, on which many seats step at once.
#![tactic(auto)]

mod beginning;
mod ending;
mod operations;
mod pass;
mod plays;
mod renewing;
mod rooms;
mod rule;
mod seat;
mod table;
mod turning;
mod writing;

pub use pass::Pass;
pub use seat::TableSeat;
pub use table::TaskTable;
