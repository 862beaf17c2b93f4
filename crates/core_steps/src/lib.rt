//! The steps of the core, one call for each kind, and the table that one thread keeps.
#![tactic(auto)]

mod blocks;
mod claiming;
mod closed;
mod closes;
mod electing;
mod hints;
mod jobs;
pub mod kinds;
mod loads;
pub mod making;
mod plain;
mod renewing;
mod seat;
mod steps;
pub mod store;
mod striking;
mod touching;
pub mod trace;
pub mod tracing;
mod views;

pub use closed::Closed;
pub use hints::Hints;
pub use plain::PlainTable;
pub use seat::PlainSeat;
pub use steps::Steps;
