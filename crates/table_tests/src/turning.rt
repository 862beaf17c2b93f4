//! Seats that are turned: each turns its task, or asks the row of the newest hint for a job.
ghost use Rattle.std.specs.Prelude.{◌≡◌, ◌≢◌, ◌≤◌, IfOk, None, OnOk, Some, []};
ghost use Rattle.acyclic_audit.specs.Views.{graph as tasks_of};
ghost use Rattle.compute_notify.specs.Items.{job_item};
ghost use Rattle.compute_notify.specs.Rooms.{HasRoom};
ghost use Rattle.compute_notify.specs.Running.{Makes, Runs};
ghost use Rattle.compute_notify.specs.Tasks.{HasSpace, Holds, IsNew, TaskScratch, TaskTells, task_items};
ghost use Rattle.core_state.specs.Asked.{IsCoreKey};
ghost use Rattle.graph_model.specs.Graph.{Graph};
ghost use Rattle.recovery.specs.Memory.{KnowsKey};
ghost use Rattle.table_tests.specs.Sitting.{HasScratch, Sits, WorksOn, setting_for};
ghost use Rattle.task_table.specs.Passes.{lender_of};
ghost use Rattle.worker_pool.specs.Working.{IsIdle, KeepsTable, NamesTasks};

use acyclic_audit::FileGraph;
use compute_notify::{Run, Scratch, Task};
use core_state::{Course, Job};
use core_steps::{Hints, Steps};
use graph_model::{FaultPlan, Kernel, Key, NoProbe};
use graph_runner::FormulaKernel;
use key_table::{KeyWords, Seen};
use recovery::Turn;
use std::alloc::{AllocError, Global};
use task_table::TableSeat;

// A run that goes on for so many rounds has failed.
const ROUNDS: usize = 100_000;

/// The graph and the plan of a run.
#[derive(Clone, Copy)]
pub(crate) struct Terms<'a> {
    pub graph: &'a FileGraph,
    pub plan: &'a FaultPlan,
}

/// How many turns the first seat makes before the second, and how many the second before the first.
#[derive(Clone, Copy)]
pub(crate) struct Schedule {
    pub first: u32,
    pub second: u32,
}

/// What a seat works on.
#[derive(Drop)]
pub(crate) struct Hand {
    pub task: Option<Task>,
    pub scratch: Scratch,
}

/// The task that a job begins.
pub(crate) fn task_of(alloc: Global, row: u32, key: Key, job: Job, life: u32) -> Task
    ensures { IsNew result (job_item (record { row = row; key = key; life = life }) job) }
{
    match job {
        Job::Explore => Task::explore(alloc, row, key, life),
        Job::Compute => Task::compute(alloc, row, key, life),
    }
}

// The task of the job that is posted in a row, if one is.
fn job_at<T: Steps>(
    alloc: Global,
    steps: &mut T,
    row: u32,
    key: Key,
    job: Job,
) -> Result<Option<Task>, AllocError>
    requires idle { IsIdle (T.view steps.old) }
    requires known { KnowsKey (T.setting steps.old) (T.view steps.old) row key.0 }
    ensures works { (g : Graph) → IsCoreKey g key.0 → IfOk result (λ t. WorksOn g (T.setting steps.old) (T.view steps.new) t) }
    ensures scratch { (g : Graph) (s : Scratch) → HasRoom g s → IfOk result (λ t. HasScratch g (T.setting steps.old) s t) }
    ensures idle { IfOk result (λ t. t ≡ None → IsIdle (T.view steps.new)) }
    ensures known { KnowsKey (T.setting steps.old) (T.view steps.new) row key.0 }
    ensures table { KeepsTable T.setting T.lender T.others steps.old steps.new }
{
    steps.reserve(1)?;
    let life = steps.take(row, job);
    if life > 0 {
        return Ok(Some(task_of(alloc, row, key, job, life)));
    }
    Ok(None)
}

// The task of a job that is posted in the row of a hint, if one is.
fn serve<T: Steps>(alloc: Global, steps: &mut T, row: u32) -> Result<Option<Task>, AllocError>
    requires idle { IsIdle (T.view steps.old) }
    ensures works { (g : Graph) → NamesTasks g (T.setting steps.old) → IfOk result (λ t. WorksOn g (T.setting steps.old) (T.view steps.new) t) }
    ensures scratch { (g : Graph) (s : Scratch) → HasRoom g s → IfOk result (λ t. HasScratch g (T.setting steps.old) s t) }
    ensures table { KeepsTable T.setting T.lender T.others steps.old steps.new }
{
    if row >= steps.rows() {
        return Ok(None);
    }
    let Seen::Holds { key } = steps.look(row) else {
        return Ok(None);
    };
    match job_at(alloc, steps, row, key, Job::Explore)? {
        Some(task) => Ok(Some(task)),
        None => job_at(alloc, steps, row, key, Job::Compute),
    }
}

// One turn of a task for which there is room.
fn turned<T: Steps, Ke: Kernel>(
    steps: &mut T,
    terms: &Terms<'_>,
    kernel: &mut Ke,
    scratch: &mut Scratch,
    task: &mut Task,
    posted: &mut Hints,
) -> Turn
    requires runs { Runs (tasks_of terms.now.graph.now) terms.now.plan.now 65535 (T.setting steps.old) }
    requires makes { Makes (tasks_of terms.now.graph.now) (Ke.outcome kernel.old) (Ke.fits kernel.old) (T.setting steps.old) }
    requires holds { Holds (tasks_of terms.now.graph.now) (T.setting steps.old) (T.view steps.old) task.old }
    requires some { task_items task.old ≢ [] }
    requires scratch { TaskScratch (T.setting steps.old) (tasks_of terms.now.graph.now) scratch.old task.old }
    requires space { HasSpace task.old }
    requires spare { 1 ≤ Ke.spare kernel.old }
    requires posted { posted.old ≡ [] }
    requires room { 2 ≤ T.KeyWords.spare steps.old }
    ensures holds { Holds (tasks_of terms.now.graph.now) (T.setting steps.old) (T.view steps.new) task.new }
    ensures tells { TaskTells (T.setting steps.old) (T.view steps.new) task.new result }
    ensures scratch { TaskScratch (T.setting steps.old) (tasks_of terms.now.graph.now) scratch.new task.new }
    ensures table { KeepsTable T.setting T.lender T.others steps.old steps.new }
{
    let mut run = Run {
        graph: terms.graph,
        kernel,
        plan: terms.plan,
        lives: 65_535,
        scratch,
        hints: posted,
    };
    task.turn(steps, &mut run)
}

// Keeps the rows that a turn posted in, of which there are two at most.
fn keep(hints: &mut Vec<u32>, posted: &mut Hints) -> Result<(), AllocError> {
    for _ in 0..2 {
        if let Some(row) = posted.pop() {
            hints.push(row)?;
        }
    }
    Ok(())
}

// One turn of a task, and what is left of it. The rows that it posts in come to the hints.
fn work<T: Steps>(
    alloc: Global,
    steps: &mut T,
    terms: &Terms<'_>,
    scratch: &mut Scratch,
    task: Task,
    hints: &mut Vec<u32>,
) -> Result<Option<Task>, AllocError>
    requires setting { T.setting steps.old ≡ setting_for terms.now.graph.now terms.now.plan.now }
    requires sits { Sits (tasks_of terms.now.graph.now) (T.setting steps.old) (T.view steps.old) (Some task) scratch.old }
    ensures sits { IfOk result (λ t. Sits (tasks_of terms.now.graph.now) (T.setting steps.old) (T.view steps.new) t scratch.new) }
    ensures table { OnOk result (KeepsTable T.setting T.lender T.others steps.old steps.new) }
{
    prove!(terms.plan.len() <= 4_096);
    let mut task = task;
    let mut kernel = FormulaKernel::new(terms.graph, NoProbe);
    let mut posted = Hints::new(alloc)?;
    steps.reserve(2)?;
    task.reserve()?;
    kernel.reserve(1)?;
    let told = turned(steps, terms, &mut kernel, scratch, &mut task, &mut posted);
    keep(hints, &mut posted)?;
    match told {
        Turn::Done => Ok(None),
        _ => Ok(Some(task)),
    }
}

// One turn of a seat. Whether nothing is pending is asked where there is nothing to do.
fn turn<C: Course>(
    alloc: Global,
    seat: &mut TableSeat<'_, C>,
    terms: &Terms<'_>,
    hand: &mut Hand,
    hints: &mut Vec<u32>,
) -> Result<bool, AllocError>
    requires setting { C.setting ≡ setting_for terms.now.graph.now terms.now.plan.now }
    requires sits { Sits (tasks_of terms.now.graph.now) C.setting seat.old.pass.view hand.old.task hand.old.scratch }
    ensures sits { OnOk result (Sits (tasks_of terms.now.graph.now) C.setting seat.new.pass.view hand.new.task hand.new.scratch) }
    ensures lender { OnOk result (lender_of seat.new.pass ≡ lender_of seat.old.pass) }
{
    match hand.task.take() {
        Some(task) => {
            hand.task = work(alloc, seat, terms, &mut hand.scratch, task, hints)?;
            Ok(false)
        }
        None => match hints.pop() {
            Some(row) => {
                hand.task = serve(alloc, seat, row)?;
                Ok(false)
            }
            None => Ok(seat.load_pending() == 0),
        },
    }
}

// So many turns of a seat, until it finds that nothing is pending, which is told.
fn turns<C: Course>(
    alloc: Global,
    seat: &mut TableSeat<'_, C>,
    terms: &Terms<'_>,
    hand: &mut Hand,
    hints: &mut Vec<u32>,
    many: u32,
) -> Result<bool, AllocError>
    requires setting { C.setting ≡ setting_for terms.now.graph.now terms.now.plan.now }
    requires sits { Sits (tasks_of terms.now.graph.now) C.setting seat.old.pass.view hand.old.task hand.old.scratch }
    ensures sits { OnOk result (Sits (tasks_of terms.now.graph.now) C.setting seat.new.pass.view hand.new.task hand.new.scratch) }
    ensures lender { OnOk result (lender_of seat.new.pass ≡ lender_of seat.old.pass) }
{
    for _ in 0..many {
        if turn(alloc, seat, terms, hand, hints)? {
            return Ok(true);
        }
    }
    Ok(false)
}

/// Turns two seats as the schedule says, until one finds that nothing is pending.
pub(crate) fn alternate<C: Course>(
    alloc: Global,
    first: &mut TableSeat<'_, C>,
    second: &mut TableSeat<'_, C>,
    terms: &Terms<'_>,
    one: &mut Hand,
    other: &mut Hand,
    schedule: Schedule,
) -> Result<bool, AllocError>
    requires setting { C.setting ≡ setting_for terms.now.graph.now terms.now.plan.now }
    requires first { Sits (tasks_of terms.now.graph.now) C.setting first.old.pass.view one.old.task one.old.scratch }
    requires second { Sits (tasks_of terms.now.graph.now) C.setting second.old.pass.view other.old.task other.old.scratch }
    ensures first { OnOk result (Sits (tasks_of terms.now.graph.now) C.setting first.new.pass.view one.new.task one.new.scratch) }
    ensures second { OnOk result (Sits (tasks_of terms.now.graph.now) C.setting second.new.pass.view other.new.task other.new.scratch) }
    ensures lenders { OnOk result ((lender_of first.new.pass ≡ lender_of first.old.pass) × (lender_of second.new.pass ≡ lender_of second.old.pass)) }
{
    let mut hints = Vec::new(alloc);
    for _ in 0..ROUNDS {
        if turns(alloc, first, terms, one, &mut hints, schedule.first)? {
            return Ok(true);
        }
        if turns(alloc, second, terms, other, &mut hints, schedule.second)? {
            return Ok(true);
        }
    }
    Ok(false)
}
