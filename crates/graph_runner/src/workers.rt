//! Graphs that are run by workers, one for each kernel.

ghost use Rattle.std.specs.Prelude.{◌≡◌, ◌+◌, ◌++◌, ◌≤◌, [], List, length, map, vec_capacity, vec_len, IfErr, IfOk};
ghost use Rattle.graph_model.specs.Notes.{Note};
ghost use Rattle.worker_pool.specs.Calling.{AreAlike, CalledAsRecorded, CanRun, FirstFits, SameKernels, first_outcome};
ghost use Rattle.worker_pool.specs.Completing.{AnswersPlan, IsComplete};
ghost use Rattle.worker_pool.specs.Ends.{EndCalls, EndTells, IsFinished, NoneMissing, RunCalls, RunTells};
ghost use Rattle.worker_pool.specs.declared.end.Why.TheVariants as reason;
ghost use Rattle.graph_runner.specs.Notes.{Told};
ghost use Rattle.graph_runner.specs.Terms.{AreWithin, MayEnd};
ghost use Rattle.graph_runner.specs.Workers.{IsCleared, IsDue, RunAnswers, RunComes};

use crate::probed::{Noting, put_back};
use crate::terms::{Pace, Terms, turns_for};
use graph_model::{Cells, FaultPlan, Kernel, Probe, Record, TaskGraph};
use std::alloc::Global;
use std::sync::Wait;
use std::thread::Threads;
use worker_pool::{Finished, RunEnd, Why, run_graph, run_virtual};

// Runs a graph by these kernels: in threads, or by turns in one.
fn run_at_pace<R: Threads + Wait + Sync, G: TaskGraph, Ke: Kernel>(
    rt: &R,
    alloc: Global,
    graph: &G,
    plan: &FaultPlan,
    terms: &Terms<'_>,
    kernels: Vec<Ke>,
) -> Result<Finished<Ke>, RunEnd<Ke>>
    requires terms { AreWithin terms.now }
    requires kernels { length kernels.items ≡ terms.now.workers }
    requires alike { AreAlike Ke.outcome Ke.fits kernels.items }
    requires can { CanRun (G.graph graph.now) (first_outcome Ke.outcome kernels.items) (FirstFits Ke.fits kernels.items) }
    ensures finished { IfOk result (λ f. IsFinished (G.graph graph.now) (first_outcome Ke.outcome kernels.items) plan.now f.value f.records.items) }
    ensures calls { IfOk result (λ f. CalledAsRecorded (map Ke.calls kernels.items) (map Ke.calls f.kernels.items) f.records.items) }
    ensures kernels { IfOk result (λ f. SameKernels Ke.outcome Ke.fits kernels.items f.kernels.items) }
    ensures answers { IfOk result (λ f. AnswersPlan (G.graph graph.now) plan.now f.records.items) }
    ensures ended { IfErr result (λ r. EndTells (G.graph graph.now) (first_outcome Ke.outcome kernels.items) plan.now terms.now.lives r.why r.records.items) }
    ensures end_calls { IfErr result (λ r. EndCalls (G.graph graph.now) (map Ke.calls kernels.items) (map Ke.calls r.kernels.items) r.why r.records.items) }
    ensures end_kernels { IfErr result (λ r. SameKernels Ke.outcome Ke.fits kernels.items r.kernels.items) }
    ensures complete { IfErr result (λ r. IsComplete (G.graph graph.now) plan.now terms.now.lives r.why r.records.items) }
    ensures due { IfErr result (λ r. IsDue (MayEnd terms.now.workers terms.now.pace) (G.graph graph.now) plan.now r.records.items r.why) }
{
    match terms.pace {
        Pace::Threads => run_graph(rt, alloc, graph, kernels, plan, terms.lives),
        Pace::Turns { schedule, turns } => {
            let turns = turns_for(turns, schedule, graph, plan);
            run_virtual(alloc, graph, kernels, plan, terms.lives, schedule, turns)
        }
    }
}

// The records of a run that ended for this reason. None is left where room was refused, since others may be missing.
fn whole_records(alloc: Global, why: Why, records: Vec<Record>) -> Vec<Record>
    ensures all { NoneMissing why → result.items ≡ records.items }
    ensures cleared { why ≡ reason.OutOfMemory → result.items ≡ [] }
{
    match why {
        Why::OutOfMemory => Vec::new(alloc),
        Why::LivesSpent { .. } => records,
        Why::ScheduleShort { .. } => records,
    }
}

// What the workers of these kernels come to, with the records and the kernels in their order.
fn run_kernels<R: Threads + Wait + Sync, G: TaskGraph, Ke: Kernel>(
    rt: &R,
    alloc: Global,
    graph: &G,
    plan: &FaultPlan,
    terms: &Terms<'_>,
    kernels: Vec<Ke>,
) -> (Result<Cells, Why>, Vec<Record>, Vec<Ke>)
    requires terms { AreWithin terms.now }
    requires kernels { length kernels.items ≡ terms.now.workers }
    requires alike { AreAlike Ke.outcome Ke.fits kernels.items }
    requires can { CanRun (G.graph graph.now) (first_outcome Ke.outcome kernels.items) (FirstFits Ke.fits kernels.items) }
    ensures tells { RunTells (G.graph graph.now) (first_outcome Ke.outcome kernels.items) plan.now terms.now.lives result.0 result.1.items }
    ensures answers { RunAnswers (G.graph graph.now) plan.now terms.now.lives result.0 result.1.items }
    ensures calls { RunCalls (G.graph graph.now) (map Ke.calls kernels.items) (map Ke.calls result.2.items) result.0 result.1.items }
    ensures due { IfErr result.0 (IsDue (MayEnd terms.now.workers terms.now.pace) (G.graph graph.now) plan.now result.1.items) }
    ensures cleared { IsCleared result.0 result.1.items }
    ensures count { vec_len result.2 ≡ vec_len kernels }
{
    match run_at_pace(rt, alloc, graph, plan, terms, kernels) {
        Ok(
            Finished {
                value,
                records,
                kernels,
            },
        ) => (Ok(value), records, kernels),
        Err(
            RunEnd {
                why,
                records,
                kernels,
            },
        ) => (Err(why), whole_records(alloc, why, records), kernels),
    }
}

/// Runs a graph with this plan of faults by workers with these kernels, whose probes it puts back before the others.
pub(crate) fn run_by_workers<
    R: Threads + Wait + Sync,
    G: TaskGraph,
    P: Probe + Drop,
    Ke: Noting<P>,
>(
    rt: &R,
    alloc: Global,
    graph: &G,
    plan: &FaultPlan,
    terms: &Terms<'_>,
    kernels: Vec<Ke>,
    probes: &mut Vec<P>,
    records: &mut Vec<Record>,
) -> Result<Cells, Why>
    requires terms { AreWithin terms.now }
    requires kernels { length kernels.items ≡ terms.now.workers }
    requires alike { AreAlike Ke.outcome Ke.fits kernels.items }
    requires can { CanRun (G.graph graph.now) (first_outcome Ke.outcome kernels.items) (FirstFits Ke.fits kernels.items) }
    requires room { vec_len kernels + vec_len probes.old ≤ vec_capacity probes.old }
    ensures comes { (before : List P) → map Ke.calls kernels.items ++ map P.notes probes.old.items ≡ map P.notes before → (news : List (List Note)) × Told P.notes before probes.new.items news
        × RunComes (G.graph graph.now) (first_outcome Ke.outcome kernels.items) plan.now terms.now.lives result records.new.items news }
    ensures due { IfErr result (IsDue (MayEnd terms.now.workers terms.now.pace) (G.graph graph.now) plan.now records.new.items) }
{
    let (made, done, kernels) = run_kernels::<R, G, Ke>(rt, alloc, graph, plan, terms, kernels);
    put_back::<P, Ke>(kernels, probes);
    *records = done;
    made
}
