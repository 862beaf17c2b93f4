//! The virtual workers at one table, and their turns.
ghost use Rattle.std.specs.Prelude.{◌≡◌, ◌≢◌, ◌%◌, ◌<◌, ◌≤◌, All, IfOk, IfSome, List, None, Option, Some, [], length, map, slice_get, slice_index, true};
ghost use Rattle.recovery.specs.Memory.{SameResults};
ghost use Rattle.compute_notify.specs.Running.{Runs};
ghost use Rattle.core_state.specs.Graph.{Setting};
ghost use Rattle.core_state.specs.declared.views.View.{View};
ghost use Rattle.core_state.specs.Rooted.{root_key};
ghost use Rattle.core_state.specs.Sure.{IsSure};
ghost use Rattle.core_state.specs.Counts.{noted, total_of};
ghost use Rattle.core_state.specs.Tests.{is_any_replaced};
ghost use Rattle.core_steps.specs.Table.{view_in};
ghost use Rattle.graph_model.specs.Graph.{Graph};
ghost use Rattle.graph_model.specs.Notes.{Note};
ghost use Rattle.graph_model.specs.declared.plan.Strike.{Strike};
ghost use Rattle.run_bounds.specs.Moving.{IsListed};
ghost use Rattle.run_bounds.specs.Storm.{IsStormRun};
ghost use Rattle.worker_pool.specs.Calling.{AreAlike, SameKernels};
ghost use Rattle.worker_pool.specs.Joining.{HaveEnded};
ghost use Rattle.worker_pool.specs.Pooling.{AreNew, IsRun, KernelsCalled, KernelsMake, OthersStay, StopTells, WorkersHold};
ghost use Rattle.worker_pool.specs.Sharing.{Begins, IsPaid, MakesTurn, TakesHint, all_hints};
ghost use Rattle.worker_pool.specs.Working.{SpentShown, is_idle};

use crate::worker::{Spent, Terms, Worker};
use compute_notify::Task;
use core_state::{Course, Layout, ROOT};
use core_steps::{Closed, Hints, PlainTable, Steps};
use graph_model::{Kernel, TaskGraph};
use std::alloc::{AllocError, Global};

/// How the turns ended.
#[derive(Clone, Copy, Debug)]
pub(crate) enum Stop {
    /// Pending was 0, or the turns were over.
    Over,
    OutOfMemory,
    Spent { spent: Spent },
}

/// The table and the virtual workers of one run.
#[derive(Drop)]
pub(crate) struct Pool<C: Course> {
    pub table: PlainTable<C>,
    pub workers: Vec<Worker>,
    pub posted: Hints,
}

// The newest hint of a worker, or the oldest one of the next worker in order that has one.
fn hint_for(workers: &mut Vec<Worker>, worker: usize) -> Option<u32>
    requires { worker < length workers.old.items }
    ensures works { map (λ w. w.work) workers.new.items ≡ map (λ w. w.work) workers.old.items }
    ensures holds { (g : Graph) (e : Setting) (vs : List View) → WorkersHold g e vs workers.old.items → WorkersHold g e vs workers.new.items }
    ensures row { (g : Graph) (e : Setting) (vs : List View) → WorkersHold g e vs workers.old.items → IfSome result (λ row. row < e.shape.rows) }
    ensures taken { TakesHint result (all_hints workers.old.items) (all_hints workers.new.items) }
{
    if let Some(row) = workers[worker].newest_hint() {
        return Some(row);
    }
    let count = workers.len();
    for i in 1..count {
        if let Some(row) = workers[(worker + i) % count].oldest_hint() {
            return Some(row);
        }
    }
    None
}

/// The row of the root in a table of so many rows.
pub(crate) fn root_row(rows: u32) -> u32
    requires { 0 < rows }
    ensures { result ≡ root_key % rows }
{
    (ROOT.0 % u64::from(rows)) as u32
}

/// Workers without work, of which the first is to explore the root.
pub(crate) fn new_workers<G: TaskGraph>(
    alloc: Global,
    graph: &G,
    root_row: u32,
    count: u32,
) -> Result<Vec<Worker>, AllocError>
    requires { 0 < count }
    ensures { IfOk result (λ ws. AreNew (G.graph graph.now) root_row count ws.items) }
{
    let mut workers = Vec::with_capacity(alloc, count as usize)?;
    for _ in 0..count {
        workers.push(Worker::new(alloc, graph)?)?;
    }
    workers[0].begin(Task::explore(alloc, root_row, ROOT, 1));
    Ok(workers)
}

impl<C: Course> Pool<C> {
    /// The table of a graph with so many workers, of which the first is to explore the root.
    pub(crate) fn new<G: TaskGraph>(
        alloc: Global,
        graph: &G,
        workers: u32,
    ) -> Result<Pool<C>, AllocError>
        requires run { IsRun (G.graph graph.now) C.setting }
        requires workers { (1 ≤ workers) × (workers ≤ 64) }
        ensures holds { IfOk result (λ pool. WorkersHold (G.graph graph.now) C.setting pool.table.views pool.workers.items) }
        ensures posted { IfOk result (λ pool. pool.posted ≡ []) }
        ensures count { IfOk result (λ pool. length pool.workers.items ≡ workers) }
        ensures calls { IfOk result (λ pool. (before : List (Option (List Note))) → length before ≡ workers → KernelsCalled before before pool.table.views) }
        ensures begins { IfOk result (λ pool. (strikes : List Strike) → IsStormRun (G.graph graph.now) strikes C.setting → Begins (G.graph graph.now) strikes C.setting pool.table pool.workers.items) }
    {
        let layout = Layout::of(alloc, graph)?;
        let row = root_row(layout.rows);
        let table = PlainTable::new(alloc, layout, workers)?;
        Ok(Pool {
            table,
            workers: new_workers(alloc, graph, row, workers)?,
            posted: Hints::new(alloc)?,
        })
    }

    // A turn of a worker without work: a look at the row of a hint, if there is one.
    fn look(&mut self, worker: u32)
        requires worker { worker < length self.old.workers.items }
        requires idle { (w : Worker) → slice_get self.old.workers.items worker ≡ Some w → is_idle w.work ≡ true }
        requires holds { (g : Graph) × WorkersHold g C.setting self.old.table.views self.old.workers.items }
        ensures holds { (g : Graph) → IsRun g C.setting → WorkersHold g C.setting self.old.table.views self.old.workers.items → WorkersHold g C.setting self.new.table.views self.new.workers.items }
        ensures results { SameResults (view_in self.old.table.views worker) (view_in self.new.table.views worker) }
        ensures others { OthersStay self.old.table.views self.new.table.views worker }
        ensures posted { self.new.posted ≡ self.old.posted }
        ensures makes { (g : Graph) (strikes : List Strike) → IsRun g C.setting → WorkersHold g C.setting self.old.table.views self.old.workers.items → MakesTurn g C.setting strikes worker self.old.table self.old.workers.items self.new.table self.new.workers.items }
    {
        let at = worker as usize;
        if let Some(row) = hint_for(&mut self.workers, at) {
            let mut seat = self.table.seat(worker);
            self.workers[at].look(&mut seat, row);
        }
    }

    // One turn of a worker, with its kernel.
    fn turn<G: TaskGraph, Ke: Kernel>(
        &mut self,
        alloc: Global,
        terms: &Terms<'_, G>,
        kernels: &mut Vec<Ke>,
        worker: u32,
    ) -> Result<Option<Spent>, AllocError>
        requires worker { worker < length kernels.old.items }
        requires kernels { length kernels.old.items ≡ length self.old.workers.items }
        requires run { IsRun (G.graph terms.now.graph.now) C.setting }
        requires runs { Runs (G.graph terms.now.graph.now) terms.now.plan.now terms.now.lives C.setting }
        requires outcome { KernelsMake (G.graph terms.now.graph.now) C.setting Ke.outcome Ke.fits kernels.old.items }
        requires holds { WorkersHold (G.graph terms.now.graph.now) C.setting self.old.table.views self.old.workers.items }
        requires posted { self.old.posted ≡ [] }
        ensures holds { WorkersHold (G.graph terms.now.graph.now) C.setting self.new.table.views self.new.workers.items }
        ensures posted { self.new.posted ≡ [] }
        ensures spent { IfOk result (λ spent. SpentShown C.setting (view_in self.new.table.views worker) spent) }
        ensures calls { (before : List (Option (List Note))) → KernelsCalled before (map Ke.calls kernels.old.items) self.old.table.views → KernelsCalled before (map Ke.calls kernels.new.items) self.new.table.views }
        ensures outcome { KernelsMake (G.graph terms.now.graph.now) C.setting Ke.outcome Ke.fits kernels.new.items }
        ensures kernels { (before : List Ke) → SameKernels Ke.outcome Ke.fits before kernels.old.items → SameKernels Ke.outcome Ke.fits before kernels.new.items }
        ensures count { length self.new.table.views ≡ length self.old.table.views }
        ensures makes { IfOk result (λ spent. spent ≡ None → MakesTurn (G.graph terms.now.graph.now) C.setting terms.now.plan.now worker self.old.table self.old.workers.items self.new.table self.new.workers.items) }
    {
        let at = worker as usize;
        if self.workers[at].is_idle() {
            self.look(worker);
            return Ok(None);
        }
        let mut seat = self.table.seat(worker);
        self.workers[at].turn(alloc, &mut seat, terms, &mut kernels[at], &mut self.posted)
    }

    // Stops the table by the seat of a worker.
    fn stop(&mut self, worker: u32)
        requires { worker < length self.old.table.views }
        ensures views { (before now : List (Option (List Note))) → KernelsCalled before now self.old.table.views → KernelsCalled before now self.new.table.views }
        ensures count { length self.new.table.views ≡ length self.old.table.views }
    {
        let mut seat = self.table.seat(worker);
        seat.stop();
    }

    /// So many turns of the workers that a schedule names, and none more once nothing is pending.
    pub(crate) fn run<G: TaskGraph, Ke: Kernel>(
        &mut self,
        alloc: Global,
        terms: &Terms<'_, G>,
        kernels: &mut Vec<Ke>,
        schedule: &[u32],
        turns: u64,
    ) -> Stop
        requires run { IsRun (G.graph terms.now.graph.now) C.setting }
        requires runs { Runs (G.graph terms.now.graph.now) terms.now.plan.now terms.now.lives C.setting }
        requires outcome { KernelsMake (G.graph terms.now.graph.now) C.setting Ke.outcome Ke.fits kernels.old.items }
        requires alike { AreAlike Ke.outcome Ke.fits kernels.old.items }
        requires kernels { length kernels.old.items ≡ length self.old.workers.items }
        requires schedule { schedule.now ≢ [] }
        requires workers { All (λ i. i < length kernels.old.items) schedule.now }
        requires holds { WorkersHold (G.graph terms.now.graph.now) C.setting self.old.table.views self.old.workers.items }
        requires posted { self.old.posted ≡ [] }
        ensures stop { StopTells C.setting self.new.table.views result }
        ensures calls { (before : List (Option (List Note))) → KernelsCalled before (map Ke.calls kernels.old.items) self.old.table.views → KernelsCalled before (map Ke.calls kernels.new.items) self.new.table.views }
        ensures kernels { SameKernels Ke.outcome Ke.fits kernels.old.items kernels.new.items }
        ensures count { length self.new.table.views ≡ length self.old.table.views }
        ensures paid { Begins (G.graph terms.now.graph.now) terms.now.plan.now C.setting self.old.table self.old.workers.items → IsListed schedule.now 0 → result ≡ Stop.Over → slice_index self.new.table.words 0 ≢ 0 → IsPaid (G.graph terms.now.graph.now) terms.now.plan.now (length self.new.table.views) (length schedule.now) turns (total_of self.new.table.views (noted is_any_replaced)) }
    {
        for i in 0..turns {
            let worker = schedule[(i % schedule.len() as u64) as usize];
            match self.turn(alloc, terms, kernels, worker) {
                Ok(None) => {
                    if self.table.pending() == 0 {
                        return Stop::Over;
                    }
                }
                Ok(Some(spent)) => return Stop::Spent { spent },
                Err(_) => {
                    self.stop(worker);
                    return Stop::OutOfMemory;
                }
            }
        }
        Stop::Over
    }

    /// The closed table, or None where room for all records was refused.
    pub(crate) fn close(self) -> Option<Closed<C>>
        ensures closing { IfSome result (λ closed. HaveEnded C.setting self.table.views closed.words.items closed.blocks.items closed.records.items closed.root_replaced.items) }
        ensures words { IfSome result (λ closed. closed.words.items ≡ self.table.words) }
        ensures sure { All (IsSure C.setting) self.table.views }
    {
        let Pool {
            mut table,
            workers: _,
            posted: _,
        } = self;
        if table.gather().is_err() {
            return None;
        }
        Some(table.close())
    }
}
