//! The checks of a graph's names, sizes and inputs, and its edges, over its tasks in ascending order of keys.
#![tactic(auto)]

mod fault;
mod index;
mod inputs;
mod links;
mod names;
mod rows;
mod sizes;
mod tasks;

pub use fault::AuditFault;
pub use index::KeyIndex;
pub use inputs::check_inputs;
pub use links::{Links, links_of};
pub use names::{check_keys, check_names};
pub use rows::{empty_rows, push_at};
pub use sizes::{check_edges, check_places};
pub use tasks::{place, place_count};
