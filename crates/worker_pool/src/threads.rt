//! A run of a graph by threads, which steal work from each other over one shared table.
ghost use Rattle.std.specs.Prelude.{◌≡◌, ◌<◌, ◌≤◌, ◌+◌, ◌++◌, All, IfErr, IfOk, List, OnErr, Option, [], length, map, vec_capacity, vec_len, ℕ};
ghost use Rattle.atomic_table.specs.Seated.{TableId};
ghost use Rattle.compute_notify.specs.Running.{Runs};
ghost use Rattle.compute_notify.specs.Tasks.{some_list};
ghost use Rattle.core_state.specs.Rooted.{setting_of};
ghost use Rattle.core_state.specs.Sure.{IsSure};
ghost use Rattle.core_state.specs.Views.{all_parts};
ghost use Rattle.graph_model.specs.Notes.{Note};
ghost use Rattle.graph_model.specs.Serial.{Outcome};
ghost use Rattle.graph_model.specs.declared.plan.Strike.{Strike};
ghost use Rattle.worker_pool.specs.Calling.{AreAlike, CalledAsRecorded, CanRun, FirstFits, SameKernels, first_outcome};
ghost use Rattle.worker_pool.specs.Completing.{AnswersPlan, IsComplete};
ghost use Rattle.worker_pool.specs.Ends.{EndCalls, EndTells, IsFinished, IsNotShort, RunCalls, RunTells};
ghost use Rattle.worker_pool.specs.Joining.{AreOf, parts_of, views_of};
ghost use Rattle.worker_pool.specs.Pooling.{IsRun, KernelsCalled, KernelsMake};
ghost use Rattle.worker_pool.specs.Threads.{AllTell, AreServed, EndsWell, IsOf, IsReady, IsServed, slot_view, turned};

use crate::crew::Crew;
use crate::end::{Finished, RunEnd, Why};
use crate::joining::{Shared, begin, close};
use crate::laws::{ended, stop_shown};
use crate::serving::serve;
use crate::slot::{Ending, Rack, Slot, Station};
use crate::worker::{Terms, Worker};
use core_state::Course;
use core_steps::Hints;
use crossbeam_deque::Worker as Deque;
use graph_model::{Cells, FaultPlan, Kernel, Record, TaskGraph};
use std::alloc::{AllocError, Global};
use std::marker::Brand;
use std::sync::Wait;
use std::thread;
use std::thread::Threads;
use task_table::{Pass, TaskTable};

/// For how many hints a deque has room at first.
const HINTS: usize = 1_024;

/// What all threads of a run leave.
#[derive(Drop)]
struct Left<C: Course> {
    table: TaskTable<C>,
    passes: Vec<Pass<C>>,
    ending: Ending,
}

// So many racks with empty deques, whose workers join the crew.
fn racks(alloc: Global, count: usize, crew: &mut Crew) -> Result<Vec<Rack>, AllocError>
    ensures count { IfOk result (λ rs. length rs.items ≡ count) }
    ensures posted { IfOk result (λ rs. All (λ r. r.posted ≡ []) rs.items) }
{
    let mut racks = Vec::with_capacity(alloc, count)?;
    for number in 0..count {
        let deque = Deque::new_lifo(alloc, HINTS)?;
        let rest = crew.add(alloc, &deque)?;
        racks.push(Rack {
            deque,
            posted: Hints::new(alloc)?,
            rest,
            number,
        })?;
    }
    Ok(racks)
}

// A slot for each kernel, with its pass and its worker. The last comes first: the thread that starts the
// others serves the last slot, whose worker explores the root.
fn fill<C: Course, Ke: Kernel>(
    kernels: &mut Vec<Ke>,
    passes: &mut Vec<Pass<C>>,
    workers: Vec<Worker>,
    racks: Vec<Rack>,
    slots: &mut Vec<Slot<C, Ke>>,
)
    requires empty { slots.old.items ≡ [] }
    requires room { length kernels.old.items ≤ vec_capacity slots.old }
    requires passes { length passes.old.items ≡ length kernels.old.items }
    requires workers { length workers.items ≡ length kernels.old.items }
    requires racks { length racks.items ≡ length kernels.old.items }
    requires posted { All (λ r. r.posted ≡ []) racks.items }
    ensures kernels { turned (λ s. s.kernel) slots.new.items ≡ kernels.old.items }
    ensures views { turned slot_view slots.new.items ≡ views_of passes.old.items }
    ensures tables { (z : TableId) → AreOf z passes.old.items → All (λ s. IsOf z s.pass) slots.new.items }
    ensures workers { turned (λ s. s.station.worker) slots.new.items ≡ workers.items }
    ensures posted { All (λ s. s.station.posted ≡ []) slots.new.items }
    ensures empty { (kernels.new.items ≡ []) × (passes.new.items ≡ []) }
    ensures room { (vec_capacity kernels.new ≡ vec_capacity kernels.old) × (vec_capacity passes.new ≡ vec_capacity passes.old) }
{
    let mut workers = workers;
    let mut racks = racks;
    while let Some(kernel) = kernels.pop() {
        let (Some(pass), Some(worker), Some(rack)) = (passes.pop(), workers.pop(), racks.pop())
        else {
            unreachable!()
        };
        let Rack {
            deque,
            posted,
            rest,
            number,
        } = rack;
        slots.push_reserved(Slot {
            pass: Some(pass),
            station: Station {
                worker,
                deque,
                posted,
                rest,
                number,
            },
            kernel,
            ending: Ending::Refused,
        });
    }
}

// Turns all workers, each in a thread of its own where one can be made.
fn serve_all<C: Course + Send + Sync, G: TaskGraph + Sync, Ke: Kernel, R: Threads + Wait + Sync>(
    rt: &R,
    alloc: Global,
    table: &TaskTable<C>,
    terms: &Terms<'_, G>,
    crew: &Crew,
    slots: &mut [Slot<C, Ke>],
)
    requires run { IsRun (G.graph terms.now.graph.now) C.setting }
    requires runs { Runs (G.graph terms.now.graph.now) terms.now.plan.now terms.now.lives C.setting }
    requires ready { All (IsReady (G.graph terms.now.graph.now) C.setting table.now Ke.outcome Ke.fits) slots.old }
    ensures served { AreServed C.setting table.now Ke.outcome Ke.fits Ke.calls slots.old slots.new }
{
    let count = slots.len();
    if count > 0 {
        thread::for_each_mut(
            rt,
            slots,
            count,
            &|_, slot: &mut Slot<C, Ke>|
                requires { IsRun (G.graph terms.now.graph.now) C.setting × Runs (G.graph terms.now.graph.now) terms.now.plan.now terms.now.lives C.setting × IsReady (G.graph terms.now.graph.now) C.setting table.now Ke.outcome Ke.fits slot.now }
                ensures { IsServed C.setting table.entry.now Ke.outcome Ke.fits Ke.calls slot.entry.now slot.exit.now }
            { serve(rt, alloc, table, terms, crew, slot) },
        );
    }
}

// The slots after all threads have ended.
fn serve_slots<C: Course + Send + Sync, G: TaskGraph + Sync, Ke: Kernel, R: Threads + Wait + Sync>(
    rt: &R,
    alloc: Global,
    table: &TaskTable<C>,
    terms: &Terms<'_, G>,
    crew: &Crew,
    slots: Vec<Slot<C, Ke>>,
) -> Vec<Slot<C, Ke>>
    requires run { IsRun (G.graph terms.now.graph.now) C.setting }
    requires runs { Runs (G.graph terms.now.graph.now) terms.now.plan.now terms.now.lives C.setting }
    requires ready { All (IsReady (G.graph terms.now.graph.now) C.setting table.now Ke.outcome Ke.fits) slots.items }
    ensures served { AreServed C.setting table.now Ke.outcome Ke.fits Ke.calls slots.items result.items }
{
    let mut slots = slots;
    serve_all(rt, alloc, table, terms, crew, slots.as_mut_slice());
    slots
}

// Puts a pass behind the others, if there is one.
fn put<C: Course>(passes: &mut Vec<Pass<C>>, pass: Option<Pass<C>>)
    requires { vec_len passes.old < vec_capacity passes.old }
    ensures items { passes.new.items ≡ passes.old.items ++ some_list pass }
    ensures few { vec_len passes.new ≤ vec_len passes.old + 1 }
    ensures capacity { vec_capacity passes.new ≡ vec_capacity passes.old }
    ensures sure { All (λ p. IsSure C.setting p.view) passes.old.items → All (λ p. IsSure C.setting p.view) passes.new.items }
{
    if let Some(pass) = pass {
        pass.is_pass();
        passes.push_reserved(pass);
    }
}

// Takes kernels and passes out of their slots, in the order in which they came, and tells by what the run ends.
fn gather<C: Course, Ke: Kernel>(
    slots: Vec<Slot<C, Ke>>,
    kernels: &mut Vec<Ke>,
    passes: &mut Vec<Pass<C>>,
) -> Ending
    requires kernels { (kernels.old.items ≡ []) × (length slots.items ≤ vec_capacity kernels.old) }
    requires passes { (passes.old.items ≡ []) × (length slots.items ≤ vec_capacity passes.old) }
    requires tables { (z : TableId) × All (λ s. IsOf z s.pass) slots.items }
    requires ends { All (λ s. EndsWell C.setting (slot_view s) s.ending) slots.items }
    ensures kernels { kernels.new.items ≡ turned (λ s. s.kernel) slots.items }
    ensures tables { (z : TableId) → All (λ s. IsOf z s.pass) slots.items → AreOf z passes.new.items }
    ensures views { views_of passes.new.items ≡ turned slot_view slots.items }
    ensures tells { AllTell C.setting (views_of passes.new.items) result }
    ensures sure { All (λ p. IsSure C.setting p.view) passes.new.items }
{
    let mut slots = slots;
    let mut all = Ending::Over;
    while let Some(slot) = slots.pop() {
        let Slot {
            pass,
            station: _,
            kernel,
            ending,
        } = slot;
        kernels.push_reserved(kernel);
        put(passes, pass);
        all = all.or(ending);
    }
    slots.destroy_empty();
    all
}

// The turns of all workers of a run, from the making of the table to the end of the last thread.
fn run_workers<C: Course + Send + Sync, G: TaskGraph + Sync, Ke: Kernel, R: Threads + Wait + Sync>(
    rt: &R,
    alloc: Global,
    terms: &Terms<'_, G>,
    kernels: &mut Vec<Ke>,
) -> Result<Left<C>, AllocError>
    requires run { IsRun (G.graph terms.now.graph.now) C.setting }
    requires runs { Runs (G.graph terms.now.graph.now) terms.now.plan.now terms.now.lives C.setting }
    requires outcome { KernelsMake (G.graph terms.now.graph.now) C.setting Ke.outcome Ke.fits kernels.old.items }
    requires alike { AreAlike Ke.outcome Ke.fits kernels.old.items }
    requires kernels { (1 ≤ length kernels.old.items) × (length kernels.old.items ≤ 64) }
    ensures tables { IfOk result (λ l. AreOf l.table l.passes.items) }
    ensures parts { IfOk result (λ l. parts_of (views_of l.passes.items) ≡ all_parts) }
    ensures count { IfOk result (λ l. length l.passes.items ≡ length kernels.old.items) }
    ensures tells { IfOk result (λ l. AllTell C.setting (views_of l.passes.items) l.ending) }
    ensures sure { IfOk result (λ l. All (λ p. IsSure C.setting p.view) l.passes.items) }
    ensures calls { IfOk result (λ l. KernelsCalled (map Ke.calls kernels.old.items) (map Ke.calls kernels.new.items) (views_of l.passes.items)) }
    ensures kernels { SameKernels Ke.outcome Ke.fits kernels.old.items kernels.new.items }
    ensures err { OnErr result (kernels.new.items ≡ kernels.old.items) }
{
    let count = kernels.len();
    let Shared {
        table,
        passes,
        workers,
    } = begin::<C, G>(alloc, terms.graph, count as u32)?;
    let mut passes = passes;
    let mut crew = Crew::new(alloc, count)?;
    let racks = racks(alloc, count, &mut crew)?;
    let mut slots = Vec::with_capacity(alloc, count)?;
    fill(kernels, &mut passes, workers, racks, &mut slots);
    let slots = serve_slots(rt, alloc, &table, terms, &crew, slots);
    let ending = gather(slots, kernels, &mut passes);
    Ok(Left {
        table,
        passes,
        ending,
    })
}

// What a run comes to whose threads have left this.
fn close_left<C: Course, G: TaskGraph>(
    alloc: Global,
    graph: &G,
    left: Left<C>,
) -> (Result<Cells, Why>, Vec<Record>)
    requires tables { AreOf left.table left.passes.items }
    requires parts { parts_of (views_of left.passes.items) ≡ all_parts }
    requires some { 1 ≤ length left.passes.items }
    requires tells { AllTell C.setting (views_of left.passes.items) left.ending }
    requires sure { All (λ p. IsSure C.setting p.view) left.passes.items }
    ensures tells { (outcome : Outcome) (strikes : List Strike) (lives : ℕ) → C.setting ≡ setting_of (G.graph graph.now) outcome strikes lives → RunTells (G.graph graph.now) outcome strikes lives result.0 result.1.items }
    ensures calls { (before now : List (Option (List Note))) → length before ≡ length left.passes.items → KernelsCalled before now (views_of left.passes.items) → IsRun (G.graph graph.now) C.setting → RunCalls (G.graph graph.now) before now result.0 result.1.items }
    ensures waits { IfErr result.0 IsNotShort }
{
    let Left {
        table,
        passes,
        ending,
    } = left;
    let Some(stop) = ending.stop() else {
        return (Err(Why::OutOfMemory), Vec::new(alloc));
    };
    let Some(closed) = close(table, passes) else {
        return (Err(Why::OutOfMemory), Vec::new(alloc));
    };
    stop_shown(&closed, stop);
    ended(graph, stop, closed)
}

// The run at a table of its setting, and what it comes to.
fn run_all<C: Course + Send + Sync, G: TaskGraph + Sync, Ke: Kernel, R: Threads + Wait + Sync>(
    rt: &R,
    alloc: Global,
    terms: &Terms<'_, G>,
    kernels: &mut Vec<Ke>,
) -> (Result<Cells, Why>, Vec<Record>)
    requires setting { C.setting ≡ setting_of (G.graph terms.now.graph.now) (first_outcome Ke.outcome kernels.old.items) terms.now.plan.now terms.now.lives }
    requires run { IsRun (G.graph terms.now.graph.now) C.setting }
    requires runs { Runs (G.graph terms.now.graph.now) terms.now.plan.now terms.now.lives C.setting }
    requires outcome { KernelsMake (G.graph terms.now.graph.now) C.setting Ke.outcome Ke.fits kernels.old.items }
    requires alike { AreAlike Ke.outcome Ke.fits kernels.old.items }
    requires kernels { (1 ≤ length kernels.old.items) × (length kernels.old.items ≤ 64) }
    ensures tells { RunTells (G.graph terms.now.graph.now) (first_outcome Ke.outcome kernels.old.items) terms.now.plan.now terms.now.lives result.0 result.1.items }
    ensures calls { RunCalls (G.graph terms.now.graph.now) (map Ke.calls kernels.old.items) (map Ke.calls kernels.new.items) result.0 result.1.items }
    ensures kernels { SameKernels Ke.outcome Ke.fits kernels.old.items kernels.new.items }
    ensures waits { IfErr result.0 IsNotShort }
{
    match run_workers::<C, G, Ke, R>(rt, alloc, terms, kernels) {
        Ok(left) => close_left(alloc, terms.graph, left),
        Err(_) => (Err(Why::OutOfMemory), Vec::new(alloc)),
    }
}

/// Runs a graph with one worker for each kernel, each in a thread of its own where one can be made. A worker
/// without work takes a hint of its own, or steals one. It never ends `ScheduleShort`. That it returns is not
/// promised: a worker waits for others as long as something is pending.
pub fn run_graph<R: Threads + Wait + Sync, G: TaskGraph + Sync, Ke: Kernel + Send>(
    rt: &R,
    alloc: Global,
    graph: &G,
    kernels: Vec<Ke>,
    plan: &FaultPlan,
    lives: u32,
) -> Result<Finished<Ke>, RunEnd<Ke>>
    requires kernels { (1 ≤ length kernels.items) × (length kernels.items ≤ 64) }
    requires alike { AreAlike Ke.outcome Ke.fits kernels.items }
    requires can { CanRun (G.graph graph.now) (first_outcome Ke.outcome kernels.items) (FirstFits Ke.fits kernels.items) }
    requires lives { (1 ≤ lives) × (lives ≤ 65535) }
    ensures finished { IfOk result (λ f. IsFinished (G.graph graph.now) (first_outcome Ke.outcome kernels.items) plan.now f.value f.records.items) }
    ensures calls { IfOk result (λ f. CalledAsRecorded (map Ke.calls kernels.items) (map Ke.calls f.kernels.items) f.records.items) }
    ensures kernels { IfOk result (λ f. SameKernels Ke.outcome Ke.fits kernels.items f.kernels.items) }
    ensures answers { IfOk result (λ f. AnswersPlan (G.graph graph.now) plan.now f.records.items) }
    ensures ended { IfErr result (λ r. EndTells (G.graph graph.now) (first_outcome Ke.outcome kernels.items) plan.now lives r.why r.records.items) }
    ensures end_calls { IfErr result (λ r. EndCalls (G.graph graph.now) (map Ke.calls kernels.items) (map Ke.calls r.kernels.items) r.why r.records.items) }
    ensures end_kernels { IfErr result (λ r. SameKernels Ke.outcome Ke.fits kernels.items r.kernels.items) }
    ensures complete { IfErr result (λ r. IsComplete (G.graph graph.now) plan.now lives r.why r.records.items) }
    ensures waits { IfErr result (λ r. IsNotShort r.why) }
{
    prove!(plan.len() <= 4_096);
    let mut kernels = kernels;
    let terms = Terms { graph, plan, lives };
    let (value, records) = run_all::<Brand, G, Ke, R>(rt, alloc, &terms, &mut kernels);
    match value {
        Ok(value) => Ok(Finished {
            value,
            records,
            kernels,
        }),
        Err(why) => Err(RunEnd {
            why,
            records,
            kernels,
        }),
    }
}
