//! The graph and the plan that a number stands for.
#![tactic(auto)]

mod draws;
mod formulas;
mod law;
mod strikes;
mod tasks;
mod whole;

pub use law::{needed, worth};
pub use whole::generated;

#[cfg(test)]
mod tests;
