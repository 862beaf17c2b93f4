ghost use Rattle.std.specs.Prelude.{◌≡◌, IfOk};
ghost use Rattle.raw_graph.specs.Graph.{graph_of};
ghost use Rattle.audit_checks.specs.Accepted.{IsAccepted};
ghost use Rattle.acyclic_audit.specs.Meaning.{IsInLimits};
ghost use Rattle.drill_input.specs.Drill.{drill_graph, drill_strikes};

use crate::draws::Draws;
use crate::strikes::plan;
use crate::tasks::{SINK, tasks};
use graph_model::{FaultPlan, Key};
use raw_graph::RawGraph;
use std::alloc::{AllocError, Global};

/// The graph and the plan of a number.
pub fn generated(alloc: Global, number: u32) -> Result<(RawGraph, FaultPlan), AllocError>
    // They are exactly these.
    ensures graph { IfOk result (λ made. graph_of made.0 ≡ drill_graph number) }
    ensures plan { IfOk result (λ made. made.1 ≡ drill_strikes number) }
    // Its numbers are within the limits of a file, and it is accepted: the audit refuses it for want of memory alone.
    ensures limits { IfOk result (λ made. IsInLimits made.0.tasks.items made.0.sink.0) }
    ensures accepted { IfOk result (λ made. IsAccepted made.0.tasks.items made.0.sink.0) }
{
    let mut draws = Draws::of(number);
    let tasks = tasks(alloc, number, &mut draws)?;
    let plan = plan(alloc, &mut draws)?;
    let graph = RawGraph {
        sink: Key(SINK),
        tasks,
    };
    Ok((graph, plan))
}
