//! A worker: a task or a hint in service, and hints.
ghost use Rattle.std.specs.Prelude.{◌≡◌, ◌≢◌, ◌+◌, ◌*◌, ◌<◌, ◌≤◌, All, IfOk, IfSome, List, MatchOption, None, OnErr, OnOk, Option, Some, [], false, length, true, ℕ};
ghost use Rattle.std.specs.VecDeque.{deque_capacity, deque_len};
ghost use Rattle.compute_notify.specs.Eventing.{item_hints};
ghost use Rattle.compute_notify.specs.Items.{job_item};
ghost use Rattle.compute_notify.specs.Rooms.{HasRoom};
ghost use Rattle.compute_notify.specs.Resting.{suspect_rest};
ghost use Rattle.compute_notify.specs.Running.{Makes, Runs, SameKernel};
ghost use Rattle.compute_notify.specs.Tasks.{HasSpace, Holds, IsNew, IsNext, NewCalls, TaskScratch, TaskTells, task_items};
ghost use Rattle.compute_notify.specs.declared.item.Item.{Item};
ghost use Rattle.core_state.specs.Asked.{IsCoreKey};
ghost use Rattle.core_state.specs.Graph.{Setting};
ghost use Rattle.core_state.specs.declared.views.View.{View};
ghost use Rattle.graph_model.specs.Graph.{Graph};
ghost use Rattle.graph_model.specs.Notes.{Note};
ghost use Rattle.graph_model.specs.declared.plan.Strike.{Strike};
ghost use Rattle.recovery.specs.Memory.{KnowsKey, SameResults};
ghost use Rattle.run_bounds.specs.Hinting.{HintTaken, HintsPut};
ghost use Rattle.run_bounds.specs.Doing.Doing.{asks, idle};
ghost use Rattle.worker_pool.specs.Calling.{HasCalled};
ghost use Rattle.worker_pool.specs.Sharing.{SharesTurn, TurnsTask, doing_of};
ghost use Rattle.worker_pool.specs.Working.{IsIdle, IsNewWorker, KeepsTable, NamesTasks, SpentShown, WorkHolds, WorkScratch, WorkerHolds, is_idle, spent_of};

use compute_notify::{Run, Scratch, Task};
use core_state::Job;
use core_steps::{Hints, Steps};
use graph_model::{Cause, FaultPlan, Kernel, Key, TaskGraph};
use key_table::{KeyWords, Seen};
use recovery::Turn;
use std::alloc::{AllocError, Global};
use std::collections::VecDeque;

/// How many records and hints a turn may add.
const ROOM: u32 = 2;

/// What all turns of a run share.
pub(crate) struct Terms<'a, G> {
    pub graph: &'a G,
    pub plan: &'a FaultPlan,
    pub lives: u32,
}

impl<G> Clone for Terms<'_, G> {
    fn clone(&self) -> Result<Self, AllocError> {
        Ok(*self)
    }
}

impl<G> Copy for Terms<'_, G> {}

/// A life that has to be replaced and is the last that its task may have.
#[derive(Clone, Copy, Debug)]
pub(crate) struct Spent {
    pub key: Key,
    pub life: u32,
    pub cause: Cause,
}

/// What a worker does in its next turn.
#[derive(Debug, Drop)]
pub(crate) enum Work {
    Idle,
    /// The row of a hint is to be asked for a job.
    Serve { row: u32, key: Key, job: Job },
    Busy { task: Task },
}

/// A worker with its hints, the newest last.
#[derive(Debug, Drop)]
pub(crate) struct Worker {
    pub work: Work,
    pub hints: VecDeque<u32>,
    pub scratch: Scratch,
}

// What a turn of a task leaves to the run.
fn spent_of(turn: Turn) -> Option<Spent>
    ensures { result ≡ spent_of turn }
{
    match turn {
        Turn::LivesSpent { key, life, cause } => Some(Spent { key, life, cause }),
        Turn::Going
        | Turn::Done
        | Turn::Met {
            row: _,
            key: _,
            life: _,
            cause: _,
        }
        | Turn::Given {
            row: _,
            key: _,
            job: _,
            life: _,
        } => None,
    }
}

// Keeps the rows of a turn as hints, for which there is room.
fn keep(hints: &mut VecDeque<u32>, posted: &mut Hints)
    requires room { deque_len hints.old + length posted.old ≤ deque_capacity hints.old }
    ensures posted { posted.new ≡ [] }
    ensures put { HintsPut hints.old.items posted.old hints.new.items }
    ensures hints { (rows : ℕ) → All (λ row. row < rows) hints.old.items → All (λ row. row < rows) posted.old → All (λ row. row < rows) hints.new.items }
{
    while let Some(row) = posted.pop() {
        hints.push_back_reserved(row);
    }
}

// The task that a job begins.
fn task_of(alloc: Global, row: u32, key: Key, job: Job, life: u32) -> Task
    ensures { IsNew result (job_item (record { row = row; key = key; life = life }) job) }
{
    match job {
        Job::Explore => Task::explore(alloc, row, key, life),
        Job::Compute => Task::compute(alloc, row, key, life),
    }
}

// Asks the row of a hint for a job. Where neither job is posted, the hint is used up.
fn serve<T: Steps>(
    alloc: Global,
    steps: &mut T,
    row: u32,
    key: Key,
    job: Job,
) -> Result<Work, AllocError>
    requires idle { IsIdle (T.view steps.old) }
    requires known { KnowsKey (T.setting steps.old) (T.view steps.old) row key.0 }
    ensures holds { (g : Graph) → IsCoreKey g key.0 → IfOk result (λ work. WorkHolds g (T.setting steps.old) (T.view steps.new) work) }
    ensures scratch { (g : Graph) (s : Scratch) → HasRoom g s → IfOk result (λ work. WorkScratch (T.setting steps.old) g s work) }
    ensures err { OnErr result (T.view steps.new ≡ T.view steps.old) }
    ensures results { SameResults (T.view steps.old) (T.view steps.new) }
    ensures table { KeepsTable T.setting T.lender T.others steps.old steps.new }
    ensures pays { (g : Graph) (p : List Strike) (lives most : ℕ) (hints : List ℕ) → Runs g p lives (T.setting steps.old) → IfOk result (λ work. SharesTurn T.view T.happened T.KeyWords.made T.lender (T.setting steps.old) p most (asks row key.0 job) hints steps.old (doing_of work) hints steps.new) }
{
    steps.reserve(1)?;
    let life = steps.take(row, job);
    if life > 0 {
        return Ok(Work::Busy {
            task: task_of(alloc, row, key, job, life),
        });
    }
    Ok(match job {
        Job::Explore => Work::Serve {
            row,
            key,
            job: Job::Compute,
        },
        Job::Compute => Work::Idle,
    })
}

// One turn of a task for which there is room, with what the worker lends it.
fn turn_of<T: Steps, G: TaskGraph, Ke: Kernel>(
    task: &mut Task,
    steps: &mut T,
    terms: &Terms<'_, G>,
    kernel: &mut Ke,
    scratch: &mut Scratch,
    posted: &mut Hints,
) -> Turn
    requires holds { Holds (G.graph terms.now.graph.now) (T.setting steps.old) (T.view steps.old) task.old }
    requires some { task_items task.old ≢ [] }
    requires scratch { TaskScratch (T.setting steps.old) (G.graph terms.now.graph.now) scratch.old task.old }
    requires runs { Runs (G.graph terms.now.graph.now) terms.now.plan.now terms.now.lives (T.setting steps.old) }
    requires outcome { Makes (G.graph terms.now.graph.now) (Ke.outcome kernel.old) (Ke.fits kernel.old) (T.setting steps.old) }
    requires space { HasSpace task.old }
    requires spare { 1 ≤ Ke.spare kernel.old }
    requires posted { posted.old ≡ [] }
    requires room { 2 ≤ T.KeyWords.spare steps.old }
    ensures holds { Holds (G.graph terms.now.graph.now) (T.setting steps.old) (T.view steps.new) task.new }
    ensures tells { TaskTells (T.setting steps.old) (T.view steps.new) task.new result }
    ensures scratch { TaskScratch (T.setting steps.old) (G.graph terms.now.graph.now) scratch.new task.new }
    ensures calls { NewCalls (Ke.calls kernel.old) (Ke.calls kernel.new) (T.view steps.old) (T.view steps.new) }
    ensures kernel { SameKernel (Ke.outcome kernel.old) (Ke.outcome kernel.new) (Ke.fits kernel.old) (Ke.fits kernel.new) }
    ensures posted { (left : List Item) (x : Item) → IsNext (T.setting steps.old).graph terms.now.plan.now (task_items task.old) left (Some x) → posted.new ≡ item_hints x posted.old }
    ensures table { KeepsTable T.setting T.lender T.others steps.old steps.new }
    ensures turned { TurnsTask T.view T.happened T.KeyWords.made T.lender (T.setting steps.old) terms.now.plan.now steps.old steps.new task.old task.new posted.new result }
{
    let mut run = Run {
        graph: terms.graph,
        kernel,
        plan: terms.plan,
        lives: terms.lives,
        scratch,
        hints: posted,
    };
    task.turn(steps, &mut run)
}

// One turn of a task, for which all room is made first. A refusal changes nothing but room.
fn work_on<T: Steps, G: TaskGraph, Ke: Kernel>(
    task: &mut Task,
    steps: &mut T,
    terms: &Terms<'_, G>,
    kernel: &mut Ke,
    scratch: &mut Scratch,
    posted: &mut Hints,
) -> Result<Turn, AllocError>
    requires holds { Holds (G.graph terms.now.graph.now) (T.setting steps.old) (T.view steps.old) task.old }
    requires some { task_items task.old ≢ [] }
    requires scratch { TaskScratch (T.setting steps.old) (G.graph terms.now.graph.now) scratch.old task.old }
    requires runs { Runs (G.graph terms.now.graph.now) terms.now.plan.now terms.now.lives (T.setting steps.old) }
    requires outcome { Makes (G.graph terms.now.graph.now) (Ke.outcome kernel.old) (Ke.fits kernel.old) (T.setting steps.old) }
    requires posted { posted.old ≡ [] }
    ensures holds { Holds (G.graph terms.now.graph.now) (T.setting steps.old) (T.view steps.new) task.new }
    ensures tells { IfOk result (λ turn. TaskTells (T.setting steps.old) (T.view steps.new) task.new turn) }
    ensures err { OnErr result (task_items task.new ≡ task_items task.old) }
    ensures err_posted { OnErr result (posted.new ≡ []) }
    ensures scratch { TaskScratch (T.setting steps.old) (G.graph terms.now.graph.now) scratch.new task.new }
    ensures calls { (before : Option (List Note)) → HasCalled before (Ke.calls kernel.old) (T.view steps.old) → HasCalled before (Ke.calls kernel.new) (T.view steps.new) }
    ensures kernel { SameKernel (Ke.outcome kernel.old) (Ke.outcome kernel.new) (Ke.fits kernel.old) (Ke.fits kernel.new) }
    ensures posted { All (λ row. row < (T.setting steps.old).shape.rows) posted.new }
    ensures few { length posted.new ≤ 2 }
    ensures table { KeepsTable T.setting T.lender T.others steps.old steps.new }
    ensures turned { IfOk result (λ turn. TurnsTask T.view T.happened T.KeyWords.made T.lender (T.setting steps.old) terms.now.plan.now steps.old steps.new task.old task.new posted.new turn) }
{
    steps.reserve(ROOM)?;
    task.reserve()?;
    kernel.reserve(1)?;
    Ok(turn_of(task, steps, terms, kernel, scratch, posted))
}

impl Worker {
    /// A worker without work and hints.
    pub(crate) fn new<G: TaskGraph>(alloc: Global, graph: &G) -> Result<Worker, AllocError>
        ensures { IfOk result (λ w. IsNewWorker (G.graph graph.now) w) }
    {
        Ok(Worker {
            work: Work::Idle,
            hints: VecDeque::new(alloc),
            scratch: Scratch::new(alloc, graph)?,
        })
    }

    /// Gives a worker a task.
    pub(crate) fn begin(&mut self, task: Task)
        ensures { self.new ≡ record self.old { work = Work.Busy task } }
    {
        self.work = Work::Busy { task };
    }

    pub(crate) fn is_idle(&self) -> bool
        ensures { result ≡ is_idle self.now.work }
    {
        matches!(self.work, Work::Idle)
    }

    /// Whether a block is in hand.
    pub(crate) fn has_block(&self) -> bool
        ensures none { result ≡ false → (g : Graph) (e : Setting) (v : View) → WorkerHolds g e v self.now → v.hands ≡ [] }
        ensures some { result ≡ true → (g : Graph) (e : Setting) (v : View) → WorkerHolds g e v self.now → v.hands ≢ [] }
    {
        match &self.work {
            Work::Busy { task } => task.has_block(),
            Work::Idle
            | Work::Serve {
                row: _,
                key: _,
                job: _,
            } => false,
        }
    }

    /// Keeps a hint as the oldest.
    pub(crate) fn keep_oldest(&mut self, row: u32)
        ensures same { self.new ≡ record self.old { hints = self.new.hints } }
        ensures hints { (rows : ℕ) → row < rows → All (λ row. row < rows) self.old.hints.items → All (λ row. row < rows) self.new.hints.items }
    {
        let _ = self.hints.push_front(row);
    }

    /// Takes the newest hint.
    pub(crate) fn newest_hint(&mut self) -> Option<u32>
        ensures same { self.new ≡ record self.old { hints = self.new.hints } }
        ensures hints { (rows : ℕ) → All (λ row. row < rows) self.old.hints.items → All (λ row. row < rows) self.new.hints.items }
        ensures row { (rows : ℕ) → All (λ row. row < rows) self.old.hints.items → IfSome result (λ row. row < rows) }
        ensures taken { MatchOption result ((self.old.hints.items ≡ []) × (self.new.hints.items ≡ [])) (λ row. HintTaken self.old.hints.items row self.new.hints.items) }
    {
        self.hints.pop_back()
    }

    /// Takes the oldest hint.
    pub(crate) fn oldest_hint(&mut self) -> Option<u32>
        ensures same { self.new ≡ record self.old { hints = self.new.hints } }
        ensures hints { (rows : ℕ) → All (λ row. row < rows) self.old.hints.items → All (λ row. row < rows) self.new.hints.items }
        ensures row { (rows : ℕ) → All (λ row. row < rows) self.old.hints.items → IfSome result (λ row. row < rows) }
        ensures taken { MatchOption result ((self.old.hints.items ≡ []) × (self.new.hints.items ≡ [])) (λ row. HintTaken self.old.hints.items row self.new.hints.items) }
    {
        self.hints.pop_front()
    }

    /// Looks for the key of a hint's row. A row that has one is asked for jobs in the next turns.
    pub(crate) fn look<T: Steps>(&mut self, steps: &mut T, row: u32)
        requires idle { is_idle self.old.work ≡ true }
        requires row { row < (T.setting steps.old).shape.rows }
        ensures holds { (g : Graph) → NamesTasks g (T.setting steps.old) → WorkerHolds g (T.setting steps.old) (T.view steps.old) self.old → WorkerHolds g (T.setting steps.old) (T.view steps.new) self.new }
        ensures results { SameResults (T.view steps.old) (T.view steps.new) }
        ensures table { KeepsTable T.setting T.lender T.others steps.old steps.new }
        ensures pays { (p : List Strike) (most : ℕ) (hints : List ℕ) → IsIdle (T.view steps.old) → HintTaken hints row self.old.hints.items → SharesTurn T.view T.happened T.KeyWords.made T.lender (T.setting steps.old) p most idle hints steps.old (doing_of self.new.work) self.new.hints.items steps.new }
    {
        if let Seen::Holds { key } = steps.look(row) {
            self.work = Work::Serve {
                row,
                key,
                job: Job::Explore,
            };
        }
    }

    /// One turn of a worker that has a task or a hint in service: one step, and none where a life is spent.
    pub(crate) fn turn<T: Steps, G: TaskGraph, Ke: Kernel>(
        &mut self,
        alloc: Global,
        steps: &mut T,
        terms: &Terms<'_, G>,
        kernel: &mut Ke,
        posted: &mut Hints,
    ) -> Result<Option<Spent>, AllocError>
        requires holds { WorkerHolds (G.graph terms.now.graph.now) (T.setting steps.old) (T.view steps.old) self.old }
        requires runs { Runs (G.graph terms.now.graph.now) terms.now.plan.now terms.now.lives (T.setting steps.old) }
        requires outcome { Makes (G.graph terms.now.graph.now) (Ke.outcome kernel.old) (Ke.fits kernel.old) (T.setting steps.old) }
        requires posted { posted.old ≡ [] }
        ensures holds { WorkerHolds (G.graph terms.now.graph.now) (T.setting steps.old) (T.view steps.new) self.new }
        ensures spent { IfOk result (λ spent. SpentShown (T.setting steps.old) (T.view steps.new) spent) }
        ensures calls { (before : Option (List Note)) → HasCalled before (Ke.calls kernel.old) (T.view steps.old) → HasCalled before (Ke.calls kernel.new) (T.view steps.new) }
        ensures kernel { SameKernel (Ke.outcome kernel.old) (Ke.outcome kernel.new) (Ke.fits kernel.old) (Ke.fits kernel.new) }
        ensures posted { posted.new ≡ [] }
        ensures table { KeepsTable T.setting T.lender T.others steps.old steps.new }
        ensures pays { IfOk result (λ spent. spent ≡ None → (most : ℕ) → ((k : ℕ) → 2 * suspect_rest (T.setting steps.old) k + 2 ≤ most) → is_idle self.old.work ≡ false → SharesTurn T.view T.happened T.KeyWords.made T.lender (T.setting steps.old) terms.now.plan.now most (doing_of self.old.work) self.old.hints.items steps.old (doing_of self.new.work) self.new.hints.items steps.new) }
    {
        match &mut self.work {
            Work::Idle => Ok(None),
            Work::Serve { row, key, job } => {
                let (row, key, job) = (*row, *key, *job);
                self.work = serve(alloc, steps, row, key, job)?;
                Ok(None)
            }
            Work::Busy { task } => {
                self.hints.reserve(ROOM as usize)?;
                let turn = work_on(task, steps, terms, kernel, &mut self.scratch, posted)?;
                keep(&mut self.hints, posted);
                match turn {
                    Turn::Done => {
                        self.work = Work::Idle;
                        Ok(None)
                    }
                    other => Ok(spent_of(other)),
                }
            }
        }
    }
}
