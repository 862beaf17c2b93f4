ghost use Rattle.std.specs.Prelude.{◌≡◌, ◌<◌, ◌≤◌, ◌-◌, ℕ, length, vec_len, slice_index_or, IfOk, OnOk, IfErr};
ghost use Rattle.raw_graph.specs.declared.raw.RawTask.{RawTask};
ghost use Rattle.audit_checks.specs.Tasks.{IsAscending, keys_of, places_of};
ghost use Rattle.audit_checks.specs.Accepted.{IsAcyclic};
ghost use Rattle.audit_checks.specs.Faults.{IsFault, HasSizes};
ghost use Rattle.audit_checks.specs.Rows.{row};
ghost use Rattle.audit_checks.specs.Links.{Tells, places_in};
ghost use Rattle.audit_cycles.specs.Levels.{level};
ghost use Rattle.audit_cycles.specs.Chains.{HasRank};

use crate::cycles::{Ordered, levels_or_cycle};
use audit_checks::{AuditFault, Links};
use graph_model::Key;
use raw_graph::RawTask;
use std::alloc::Global;

/// The level of each task: one more than the length of the longest chain of predecessors below it. Tasks on a cycle are
/// refused, by the least key on one; a task behind a cycle is not on it.
pub fn check_cycles(
    alloc: Global,
    keys: &[u64],
    tasks: &[RawTask],
    links: &Links,
) -> Result<Vec<u32>, AuditFault>
    requires keys { keys_of tasks.now ≡ keys.now }
    requires ascending { IsAscending keys.now }
    requires places_len { vec_len links.now.places ≡ length tasks.now }
    requires named { (i : ℕ) (d : RawTask) → i < length tasks.now → Tells keys.now (places_of (slice_index_or tasks.now i d)) (row (places_in links.now) i) }
    requires tasks { length tasks.now ≤ 16384 }
    ensures long { IfOk result (λ levels. length levels.items ≡ length keys.now) }
    ensures levels { IfOk result (λ levels. (k : ℕ) → k < length keys.now → (0 < level levels.items k) × HasRank (places_in links.now) k (level levels.items k - 1)) }
    ensures acyclic { OnOk result (IsAcyclic tasks.now) }
    ensures err { IfErr result (λ e. (sink : ℕ) → HasSizes tasks.now sink → IsFault tasks.now sink e) }
{
    match levels_or_cycle(alloc, links.places.as_slice()) {
        Ok(Ordered::Levels(levels)) => Ok(levels),
        Ok(Ordered::Cycle(k)) => Err(AuditFault::Cycle { key: Key(keys[k]) }),
        Err(_) => Err(AuditFault::OutOfMemory),
    }
}
