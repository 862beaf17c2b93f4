//! The words that all crates share: small lists, keys, task graphs, records, probes and plans.
#![tactic(auto)]

mod graph;
mod kernel;
mod key;
mod lists;
mod plan;
mod probe;
mod record;

pub use graph::{Edge, Kind, Place, TaskGraph};
pub use kernel::{Inputs, Kernel};
pub use key::Key;
pub use lists::{Cells, Keys, Series, Text};
pub use plan::{FaultPlan, MOST_STRIKES, Point, Strike, Target};
pub use probe::{ListProbe, NoProbe, Probe};
pub use record::{Cause, Found, Hit, Record};
