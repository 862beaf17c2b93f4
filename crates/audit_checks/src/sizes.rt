ghost use Rattle.std.specs.Prelude.{◌≡◌, ◌<◌, ◌≤◌, ℕ, length, slice_index_or, IfErr, OnOk};
ghost use Rattle.raw_graph.specs.declared.raw.RawTask.{RawTask};
ghost use Rattle.audit_checks.specs.Counted.{AreCounted};
ghost use Rattle.audit_checks.specs.Tasks.{IsAscending, key_of, keys_of, succ_count};
ghost use Rattle.audit_checks.specs.Accepted.{HasFewPlaces, HasFewEdges};
ghost use Rattle.audit_checks.specs.Faults.{IsFault, HasNames};

use crate::fault::AuditFault;
use crate::tasks::place_count;
use graph_model::Key;
use raw_graph::{MOST_EDGES, MOST_PLACES, RawTask};

// Refuses a task with too many predecessors.
pub fn check_places(tasks: &[RawTask]) -> Result<(), AuditFault>
    requires { IsAscending (keys_of tasks.now) }
    ensures ok { OnOk result (HasFewPlaces tasks.now) }
    ensures err { IfErr result (λ e. (sink : ℕ) → HasNames tasks.now sink → IsFault tasks.now sink e) }
{
    for task in tasks {
        let count = place_count(task);
        if count > MOST_PLACES {
            return Err(AuditFault::TooManyPreds {
                task: task.key,
                count: count as u64,
            });
        }
    }
    Ok(())
}

// The successor edges of task i. The hidden root has one on the sink.
fn edges_at(
    keys: &[u64],
    tasks: &[RawTask],
    sink: u64,
    succs: &[Vec<(u32, u32)>],
    i: usize,
) -> usize
    requires task { i < length tasks.now }
    requires long { length succs.now ≡ length tasks.now }
    requires counted { AreCounted tasks.now keys.now succs.now }
    ensures { (d : RawTask) → result ≡ succ_count tasks.now sink (key_of (slice_index_or tasks.now i d)) }
{
    if keys[i] == sink {
        return succs[i].len() + 1;
    }
    succs[i].len()
}

// Refuses a task with too many successor edges.
pub fn check_edges(
    keys: &[u64],
    tasks: &[RawTask],
    sink: u64,
    succs: &[Vec<(u32, u32)>],
) -> Result<(), AuditFault>
    requires long { length succs.now ≡ length tasks.now }
    requires ascending { IsAscending keys.now }
    requires counted { AreCounted tasks.now keys.now succs.now }
    ensures ok { OnOk result (HasFewEdges tasks.now sink) }
    ensures err { IfErr result (λ e. HasNames tasks.now sink → HasFewPlaces tasks.now → IsFault tasks.now sink e) }
{
    for i in 0..tasks.len() {
        let count = edges_at(keys, tasks, sink, succs, i);
        if count > MOST_EDGES {
            return Err(AuditFault::TooManySuccs {
                task: Key(keys[i]),
                count: count as u64,
            });
        }
    }
    Ok(())
}
