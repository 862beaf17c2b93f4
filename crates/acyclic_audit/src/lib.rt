//! Which graphs are accepted, and what they are as task graphs.
#![tactic(auto)]

mod findings;
mod graph;
mod whole;

pub use audit_checks::AuditFault;
pub use graph::FileGraph;
pub use whole::audit;
