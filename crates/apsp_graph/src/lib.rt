//! The graph of blocked shortest paths, and the texts of its matrices.
#![tactic(auto)]

mod fault;
mod graph;
mod kernel;
mod lines;
mod numbers;
mod reading;
mod strikes;
#[cfg(test)]
mod tests;
mod tiles;
mod writing;

pub use fault::MatrixFault;
pub use graph::{MOST_VERTICES, PathGraph, WIDEST_TILE};
pub use kernel::PathKernel;
pub use reading::read_matrix;
pub use writing::matrix_text;
