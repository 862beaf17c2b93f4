//! Reading, writing and striking a block, over any seat of the core: its turn is taken in one step, and the block goes home in a later one.
#![tactic(auto)]

mod answers;
mod reading;
mod striking;
mod writing;

pub use answers::{Blow, Put, Read};
pub use reading::{end_read, read_into};
pub use striking::{end_strike, strike};
pub use writing::{end_write, write_from};
