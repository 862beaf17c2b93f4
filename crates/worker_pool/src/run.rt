//! A run of a graph by virtual workers.
ghost use Rattle.std.specs.Prelude.{◌≡◌, ◌≢◌, ◌<◌, ◌≤◌, All, IfErr, IfOk, [], length, map};
ghost use Rattle.compute_notify.specs.Running.{Runs};
ghost use Rattle.core_state.specs.Counts.{count};
ghost use Rattle.core_state.specs.Rooted.{setting_of};
ghost use Rattle.core_state.specs.Tests.{is_any_replaced};
ghost use Rattle.run_bounds.specs.Budgets.{enough_turns};
ghost use Rattle.run_bounds.specs.Moving.{IsListed};
ghost use Rattle.run_bounds.specs.Storm.{enough_turns_of};
ghost use Rattle.worker_pool.specs.Calling.{AreAlike, CalledAsRecorded, CanRun, FirstFits, SameKernels, first_outcome};
ghost use Rattle.worker_pool.specs.Completing.{AnswersPlan, HasOneVersion, IsComplete, StrikesNoBlock};
ghost use Rattle.worker_pool.specs.Ends.{EndCalls, EndTells, IsFinished, IsNotShort, RunCalls, RunTells};
ghost use Rattle.worker_pool.specs.Pooling.{IsRun, KernelsMake};

use crate::end::{Finished, RunEnd, Why};
use crate::laws::{ended, stop_shown};
use crate::pool::Pool;
use crate::worker::Terms;
use core_state::Course;
use graph_model::{Cells, FaultPlan, Kernel, Record, TaskGraph};
use std::alloc::Global;
use std::marker::Brand;

// The turns of a run at a table of its setting, and what they come to.
fn run_all<C: Course, G: TaskGraph, Ke: Kernel>(
    alloc: Global,
    terms: &Terms<'_, G>,
    kernels: &mut Vec<Ke>,
    schedule: &[u32],
    turns: u64,
) -> (Result<Cells, Why>, Vec<Record>)
    requires setting { C.setting ≡ setting_of (G.graph terms.now.graph.now) (first_outcome Ke.outcome kernels.old.items) terms.now.plan.now terms.now.lives }
    requires run { IsRun (G.graph terms.now.graph.now) C.setting }
    requires runs { Runs (G.graph terms.now.graph.now) terms.now.plan.now terms.now.lives C.setting }
    requires outcome { KernelsMake (G.graph terms.now.graph.now) C.setting Ke.outcome Ke.fits kernels.old.items }
    requires alike { AreAlike Ke.outcome Ke.fits kernels.old.items }
    requires kernels { (1 ≤ length kernels.old.items) × (length kernels.old.items ≤ 64) }
    requires schedule { schedule.now ≢ [] }
    requires workers { All (λ i. i < length kernels.old.items) schedule.now }
    ensures tells { RunTells (G.graph terms.now.graph.now) (first_outcome Ke.outcome kernels.old.items) terms.now.plan.now terms.now.lives result.0 result.1.items }
    ensures calls { RunCalls (G.graph terms.now.graph.now) (map Ke.calls kernels.old.items) (map Ke.calls kernels.new.items) result.0 result.1.items }
    ensures kernels { SameKernels Ke.outcome Ke.fits kernels.old.items kernels.new.items }
    ensures paid { IsListed schedule.now 0 → enough_turns_of (G.graph terms.now.graph.now) (length schedule.now) (length terms.now.plan.now) (count is_any_replaced result.1.items) ≤ turns → IfErr result.0 IsNotShort }
    ensures empty { IsListed schedule.now 0 → terms.now.plan.now ≡ [] → enough_turns_of (G.graph terms.now.graph.now) (length schedule.now) 0 0 ≤ turns → IfErr result.0 IsNotShort }
    ensures calm { length kernels.old.items ≡ 1 → terms.now.plan.now ≡ [] → enough_turns (G.graph terms.now.graph.now) ≤ turns → IfErr result.0 IsNotShort }
{
    let Ok(mut pool) = Pool::<C>::new(alloc, terms.graph, kernels.len() as u32) else {
        return (Err(Why::OutOfMemory), Vec::new(alloc));
    };
    let stop = pool.run(alloc, terms, kernels, schedule, turns);
    let Some(closed) = pool.close() else {
        return (Err(Why::OutOfMemory), Vec::new(alloc));
    };
    stop_shown(&closed, stop);
    ended(terms.graph, stop, closed)
}

/// Runs a graph with one virtual worker for each kernel. Turn i is that of the worker that the schedule
/// names at i modulo its length; there are so many turns, and none more once nothing is pending.
pub fn run_virtual<G: TaskGraph, Ke: Kernel>(
    alloc: Global,
    graph: &G,
    kernels: Vec<Ke>,
    plan: &FaultPlan,
    lives: u32,
    schedule: &[u32],
    turns: u64,
) -> Result<Finished<Ke>, RunEnd<Ke>>
    requires kernels { (1 ≤ length kernels.items) × (length kernels.items ≤ 64) }
    requires alike { AreAlike Ke.outcome Ke.fits kernels.items }
    requires can { CanRun (G.graph graph.now) (first_outcome Ke.outcome kernels.items) (FirstFits Ke.fits kernels.items) }
    requires lives { (1 ≤ lives) × (lives ≤ 65535) }
    requires schedule { schedule.now ≢ [] }
    requires workers { All (λ i. i < length kernels.items) schedule.now }
    ensures finished { IfOk result (λ f. IsFinished (G.graph graph.now) (first_outcome Ke.outcome kernels.items) plan.now f.value f.records.items) }
    ensures calls { IfOk result (λ f. CalledAsRecorded (map Ke.calls kernels.items) (map Ke.calls f.kernels.items) f.records.items) }
    ensures kernels { IfOk result (λ f. SameKernels Ke.outcome Ke.fits kernels.items f.kernels.items) }
    ensures answers { IfOk result (λ f. AnswersPlan (G.graph graph.now) plan.now f.records.items) }
    ensures ended { IfErr result (λ r. EndTells (G.graph graph.now) (first_outcome Ke.outcome kernels.items) plan.now lives r.why r.records.items) }
    ensures end_calls { IfErr result (λ r. EndCalls (G.graph graph.now) (map Ke.calls kernels.items) (map Ke.calls r.kernels.items) r.why r.records.items) }
    ensures end_kernels { IfErr result (λ r. SameKernels Ke.outcome Ke.fits kernels.items r.kernels.items) }
    ensures complete { IfErr result (λ r. IsComplete (G.graph graph.now) plan.now lives r.why r.records.items) }
    ensures paid { IsListed schedule.now 0 → IfErr result (λ r. enough_turns_of (G.graph graph.now) (length schedule.now) (length plan.now) (count is_any_replaced r.records.items) ≤ turns → IsNotShort r.why) }
    ensures planned { IsListed schedule.now 0 → StrikesNoBlock plan.now → HasOneVersion (G.graph graph.now) → enough_turns_of (G.graph graph.now) (length schedule.now) (length plan.now) (length plan.now) ≤ turns → IfErr result (λ r. IsNotShort r.why) }
    ensures empty { IsListed schedule.now 0 → plan.now ≡ [] → enough_turns_of (G.graph graph.now) (length schedule.now) 0 0 ≤ turns → IfErr result (λ r. IsNotShort r.why) }
    ensures calm { length kernels.items ≡ 1 → plan.now ≡ [] → enough_turns (G.graph graph.now) ≤ turns → IfErr result (λ r. IsNotShort r.why) }
{
    prove!(plan.len() <= 4_096);
    let mut kernels = kernels;
    let terms = Terms { graph, plan, lives };
    let (value, records) = run_all::<Brand, G, Ke>(alloc, &terms, &mut kernels, schedule, turns);
    match value {
        Ok(value) => Ok(Finished {
            value,
            records,
            kernels,
        }),
        Err(why) => Err(RunEnd {
            why,
            records,
            kernels,
        }),
    }
}
