//! The shared table of a run: its passes are cut for workers, and joined when these have ended.
ghost use Rattle.std.specs.Prelude.{◌≡◌, ◌≤◌, ◌∷◌, IfOk, IfSome, List, Option, [], length};
ghost use Rattle.core_state.specs.Sure.{IsSure};
ghost use Rattle.core_state.specs.Views.{all_parts};
ghost use Rattle.core_steps.specs.Table.{view_in};
ghost use Rattle.graph_model.specs.Notes.{Note};
ghost use Rattle.task_table.specs.Kept.{first_view};
ghost use Rattle.worker_pool.specs.Joining.{AreOf, HaveAll, HaveEnded, NoHands, begun_views, parts_of, root_known, views_of};
ghost use Rattle.worker_pool.specs.Pooling.{IsRun, KernelsCalled, WorkersHold};

use crate::pool::{new_workers, root_row};
use crate::worker::Worker;
use core_state::{Course, Layout};
use core_steps::Closed;
use graph_model::TaskGraph;
use std::alloc::{AllocError, Global};
use task_table::{Pass, TaskTable};

/// The shared table of a run, with a worker for each pass of it.
#[derive(Drop)]
pub(crate) struct Shared<C: Course> {
    pub table: TaskTable<C>,
    pub passes: Vec<Pass<C>>,
    pub workers: Vec<Worker>,
}

// A pass for each worker. The first goes on with what the pass had, and has all parts that are left.
fn split<C: Course>(
    alloc: Global,
    table: &TaskTable<C>,
    pass: Pass<C>,
    workers: u32,
) -> Result<Vec<Pass<C>>, AllocError>
    requires table { pass.table ≡ table.now }
    requires view { pass.view ≡ first_view C.setting }
    requires workers { (1 ≤ workers) × (workers ≤ 64) }
    ensures tables { IfOk result (λ passes. AreOf table.now passes.items) }
    ensures views { IfOk result (λ passes. views_of passes.items ≡ begun_views C.setting (root_known C.setting) workers) }
    ensures sure { IfOk result (λ passes. IsSure C.setting (view_in (views_of passes.items) 0)) }
{
    let mut passes = Vec::with_capacity(alloc, workers as usize)?;
    let mut first = pass;
    for _ in 1..workers {
        let (left, other) = table.split_pass(first);
        first = left;
        passes.push(other)?;
    }
    first.is_pass();
    passes.insert(0, first)?;
    Ok(passes)
}

/// The shared table of a graph with so many passes and workers, of which the first is to explore the root.
pub(crate) fn begin<C: Course, G: TaskGraph>(
    alloc: Global,
    graph: &G,
    workers: u32,
) -> Result<Shared<C>, AllocError>
    requires run { IsRun (G.graph graph.now) C.setting }
    requires workers { (1 ≤ workers) × (workers ≤ 64) }
    ensures tables { IfOk result (λ s. AreOf s.table s.passes.items) }
    ensures holds { IfOk result (λ s. WorkersHold (G.graph graph.now) C.setting (views_of s.passes.items) s.workers.items) }
    ensures count { IfOk result (λ s. length s.workers.items ≡ workers) }
    ensures parts { IfOk result (λ s. parts_of (views_of s.passes.items) ≡ all_parts) }
    ensures calls { IfOk result (λ s. (before : List (Option (List Note))) → length before ≡ workers → KernelsCalled before before (views_of s.passes.items)) }
{
    let layout = Layout::of(alloc, graph)?;
    let row = root_row(layout.rows);
    let (table, pass) = TaskTable::new(alloc, layout)?;
    Ok(Shared {
        passes: split(alloc, &table, pass, workers)?,
        table,
        workers: new_workers(alloc, graph, row, workers)?,
    })
}

// All passes as one, or None where room for all records was refused. They go then.
fn join<C: Course>(table: &TaskTable<C>, passes: Vec<Pass<C>>) -> Option<Pass<C>>
    requires tables { AreOf table.now passes.items }
    requires hands { NoHands passes.items }
    ensures table { IfSome result (λ pass. pass.table ≡ table.now) }
    ensures views { IfSome result (λ pass. HaveAll (views_of passes.items) (views_of (pass ∷ []))) }
{
    let mut rest = passes.into_iter();
    let mut all = rest.next()?;
    for pass in rest {
        let Ok(joined) = table.join_pass(all, pass) else {
            return None;
        };
        all = joined;
    }
    Some(all)
}

/// The closed table, of which these are all passes; None where room for all records was refused.
pub(crate) fn close<C: Course>(table: TaskTable<C>, passes: Vec<Pass<C>>) -> Option<Closed<C>>
    requires tables { AreOf table passes.items }
    requires hands { NoHands passes.items }
    requires parts { parts_of (views_of passes.items) ≡ all_parts }
    ensures { IfSome result (λ closed. HaveEnded C.setting (views_of passes.items) closed.words.items closed.blocks.items closed.records.items closed.root_replaced.items) }
{
    let pass = join(&table, passes)?;
    Some(table.close_with(pass))
}
