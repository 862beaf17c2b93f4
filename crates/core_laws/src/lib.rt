//! What is left of a core is lawful: calls that tell laws of one closed core. None of them does anything.
#![tactic(auto)]

mod laws;

pub use laws::{causes, lawful, no_fault, once, played, quiet, suspected};
