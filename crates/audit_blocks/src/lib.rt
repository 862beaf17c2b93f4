//! The versions of blocks, their order, and the numbers of blocks.
#![tactic(auto)]

mod blocks;
mod numbering;
mod readers;
mod versions;
mod written;

pub use blocks::blocks_of;
pub use numbering::Blocks;
