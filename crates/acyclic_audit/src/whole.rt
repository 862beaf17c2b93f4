ghost use Rattle.std.specs.Prelude.{◌≡◌, ◌≢◌, ◌<◌, ◌≤◌, ℕ, length, slice_index, slice_index_or, vec_len, All, OnOk, IfOk, IfErr};
ghost use Rattle.std.specs.List.Sorted.{IsNonDecreasing, IsPermutation};
ghost use Rattle.formula_text.specs.Formulas.{tree};
ghost use Rattle.raw_graph.specs.declared.raw.RawTask.{RawTask};
ghost use Rattle.audit_checks.specs.Tasks.{IsAscending, key_of, keys_of};
ghost use Rattle.audit_checks.specs.Accepted.{HasFewPlaces, IsAccepted};
ghost use Rattle.audit_checks.specs.Faults.{IsFault, HasNames};
ghost use Rattle.acyclic_audit.specs.Meaning.{IsInLimits, IsGraphOf};
ghost use Rattle.acyclic_audit.specs.Found.{IsFound};
ghost use Rattle.acyclic_audit.specs.Refusals.{Refuses};
ghost use Rattle.acyclic_audit.specs.Views.{graph, tree_at};

use crate::findings::Findings;
use crate::graph::FileGraph;
use audit_blocks::blocks_of;
use audit_checks::{
    AuditFault, KeyIndex, check_edges, check_inputs, check_keys, check_names, check_places,
    links_of,
};
use audit_cycles::check_cycles;
use graph_model::Key;
use raw_graph::{RawGraph, RawTask};
use std::alloc::{AllocError, Global};

// The tasks in ascending order of keys.
fn sorted(tasks: Vec<RawTask>) -> Vec<RawTask>
    ensures moved { IsPermutation tasks.items result.items }
    ensures sorted { IsNonDecreasing (keys_of result.items) }
{
    let mut tasks = tasks;
    tasks.sort_unstable_by_key(|task| task.key.0);
    tasks
}

// The keys of the tasks in their order.
fn keys_in(alloc: Global, tasks: &[RawTask]) -> Result<Vec<u64>, AllocError>
    ensures { IfOk result (λ keys. keys_of tasks.now ≡ keys.items) }
{
    tasks.iter().map(|task| task.key.0).collect(alloc)
}

// The first four refusals. What is left is the number of the sink.
fn check_all_names(
    keys: &[u64],
    index: &KeyIndex,
    tasks: &[RawTask],
    sink: Key,
) -> Result<u32, AuditFault>
    requires keys { keys_of tasks.now ≡ keys.now }
    requires sorted { IsNonDecreasing keys.now }
    requires tasks { length tasks.now ≤ 16384 }
    ensures names { OnOk result (HasNames tasks.now sink.0) }
    ensures places { OnOk result (HasFewPlaces tasks.now) }
    ensures ascending { OnOk result (IsAscending keys.now) }
    ensures inside { IfOk result (λ number. number < length keys.now) }
    ensures sink { IfOk result (λ number. slice_index keys.now number ≡ sink.0) }
    ensures err { IfErr result (IsFault tasks.now sink.0) }
{
    check_keys(keys, tasks)?;
    check_names(keys, index, tasks)?;
    let Some(number) = index.find(keys, sink.0) else {
        return Err(AuditFault::NoSink { key: sink });
    };
    check_places(tasks)?;
    Ok(number as u32)
}

// All refusals in their order, of tasks that stand in ascending order of keys.
fn check_all(
    alloc: Global,
    keys: &[u64],
    index: &KeyIndex,
    tasks: &[RawTask],
    sink: Key,
) -> Result<Findings, AuditFault>
    requires limits { IsInLimits tasks.now sink.0 }
    requires keys { keys_of tasks.now ≡ keys.now }
    requires sorted { IsNonDecreasing keys.now }
    ensures found { IfOk result (IsFound keys.now tasks.now sink.0) }
    ensures err { IfErr result (IsFault tasks.now sink.0) }
{
    let number = check_all_names(keys, index, tasks, sink)?;
    let Ok(links) = links_of(alloc, keys, index, tasks) else {
        return Err(AuditFault::OutOfMemory);
    };
    check_edges(keys, tasks, sink.0, links.succs.as_slice())?;
    let levels = check_cycles(alloc, keys, tasks, &links)?;
    let blocks = blocks_of(alloc, keys, tasks, &links)?;
    check_inputs(tasks)?;
    Ok(Findings {
        sink: number,
        links,
        levels,
        blocks,
    })
}

// The graph of tasks that stand in ascending order of keys, or the first refusal.
fn audit_sorted(alloc: Global, tasks: Vec<RawTask>, sink: Key) -> Result<FileGraph, AuditFault>
    requires limits { IsInLimits tasks.items sink.0 }
    requires sorted { IsNonDecreasing (keys_of tasks.items) }
    ensures accepted { OnOk result (IsAccepted tasks.items sink.0) }
    ensures err { IfErr result (IsFault tasks.items sink.0) }
    ensures graph { IfOk result (λ g. IsGraphOf tasks.items sink.0 (graph g)) }
    ensures trees { IfOk result (λ g. All (λ t. tree_at g (key_of t) ≡ tree t.formula) tasks.items) }
{
    let Ok(keys) = keys_in(alloc, tasks.as_slice()) else {
        return Err(AuditFault::OutOfMemory);
    };
    let Ok(index) = KeyIndex::of(alloc, keys.as_slice()) else {
        return Err(AuditFault::OutOfMemory);
    };
    let found = check_all(alloc, keys.as_slice(), &index, tasks.as_slice(), sink)?;
    Ok(FileGraph::of(keys, index, tasks, found))
}

/// The graph as a task graph, or the first refusal.
pub fn audit(alloc: Global, raw: RawGraph) -> Result<FileGraph, AuditFault>
    requires { IsInLimits raw.tasks.items raw.sink.0 }
    // The graph is accepted exactly where the answer is Ok.
    ensures accepted { OnOk result (IsAccepted raw.tasks.items raw.sink.0) }
    ensures refused { IfErr result (Refuses raw.tasks.items raw.sink.0) }
    // The first refusal in their order.
    ensures err { IfErr result (IsFault raw.tasks.items raw.sink.0) }
    ensures graph { IfOk result (λ g. IsGraphOf raw.tasks.items raw.sink.0 (graph g)) }
    // Its formulas are those of the tasks.
    ensures trees { IfOk result (λ g. All (λ t. tree_at g (key_of t) ≡ tree t.formula) raw.tasks.items) }
{
    let RawGraph { sink, tasks } = raw;
    audit_sorted(alloc, sorted(tasks), sink)
}
