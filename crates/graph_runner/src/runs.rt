//! Graphs of files and of numbers that are run by workers.

ghost use Rattle.std.specs.Prelude.{◌≡◌, ◌≤◌, [], List, length, vec_len, IfErr, IfOk, MatchResult};
ghost use Rattle.graph_model.specs.Notes.{Note};
ghost use Rattle.acyclic_audit.specs.Views.{graph as tasks_of};
ghost use Rattle.worker_pool.specs.Calling.{CanRun};
ghost use Rattle.graph_runner.specs.Drilling.{Drills, HoldsDrill, IsDrillText};
ghost use Rattle.graph_runner.specs.Files.{Runs};
ghost use Rattle.graph_runner.specs.Formulas.{FitsFormula, formula_outcome};
ghost use Rattle.graph_runner.specs.Notes.{Told};
ghost use Rattle.graph_runner.specs.Terms.{AreWithin, MayEnd};
ghost use Rattle.graph_runner.specs.Workers.{IsDue, RunComes};
ghost use Rattle.graph_runner.specs.declared.ending.Ending.TheVariants as ending;
ghost use Rattle.graph_runner.specs.declared.terms.Pace.TheVariants as pace;

use crate::ending::{Ending, run_ending};
use crate::kernel::FormulaKernel;
use crate::load::open;
use crate::probed::kernels_of;
use crate::serve::put_line;
use crate::terms::Terms;
use crate::workers::run_by_workers;
use acyclic_audit::{FileGraph, audit};
use drill_input::generated;
use graph_model::{Cells, FaultPlan, Probe, Record, TaskGraph, Text};
use io_edge::Source;
use run_records::report;
use std::alloc::{AllocError, Global};
use std::sync::Wait;
use std::thread::Threads;
use worker_pool::Why;

// Kernels for formulas can run each graph of a file. It does nothing.
fn file_runs(graph: &FileGraph)
    ensures { CanRun (tasks_of graph.now) (formula_outcome graph.now) (FitsFormula graph.now) }
{
    let _ = graph.task_count();
}

// Runs the graph of a file or of a number.
fn filed<R: Threads + Wait + Sync, P: Probe + Drop>(
    rt: &R,
    alloc: Global,
    graph: &FileGraph,
    plan: &FaultPlan,
    terms: &Terms<'_>,
    probes: &mut Vec<P>,
    records: &mut Vec<Record>,
) -> Result<Cells, Why>
    requires terms { AreWithin terms.now }
    requires probes { terms.now.workers ≤ vec_len probes.old }
    requires records { records.old.items ≡ [] }
    ensures comes { (news : List (List Note)) × Told P.notes probes.old.items probes.new.items news
        × RunComes (tasks_of graph.now) (formula_outcome graph.now) plan.now terms.now.lives result records.new.items news }
    ensures due { IfErr result (IsDue (MayEnd terms.now.workers terms.now.pace) (tasks_of graph.now) plan.now records.new.items) }
{
    file_runs(graph);
    let kernels: Result<Vec<FormulaKernel<'_, P>>, AllocError> = kernels_of(
        alloc,
        graph,
        probes,
        terms.workers,
    );
    match kernels {
        Ok(kernels) => run_by_workers(rt, alloc, graph, plan, terms, kernels, probes, records),
        Err(_) => Err(Why::OutOfMemory),
    }
}

/// Runs the graph that the source holds, with the plan of faults that it holds.
pub(crate) fn ran<R: Threads + Wait + Sync, S: Source, P: Probe + Drop>(
    rt: &R,
    alloc: Global,
    source: &mut S,
    terms: &Terms<'_>,
    probes: &mut Vec<P>,
    records: &mut Vec<Record>,
) -> Result<Text, Ending>
    requires terms { AreWithin terms.now }
    requires probes { terms.now.workers ≤ vec_len probes.old }
    requires records { records.old.items ≡ [] }
    ensures { (news : List (List Note)) × Told P.notes probes.old.items probes.new.items news
        × Runs (record { left = S.left source.old; left_after = S.left source.new; faults = S.faults source.old; faults_after = S.faults source.new }) (MayEnd terms.now.workers terms.now.pace) terms.now.lives terms.now.detail records.new.items news result }
{
    let (graph, plan) = open(alloc, source)?;
    let value = match filed(rt, alloc, &graph, &plan, terms, probes, records) {
        Ok(value) => value,
        Err(why) => return Err(run_ending(why)),
    };
    let text = report(alloc, value.as_slice(), records.as_slice(), terms.detail)?;
    Ok(text)
}

// The graph and the plan of a number. The audit refuses it for want of memory alone.
fn drill_of(alloc: Global, number: u32) -> Result<(FileGraph, FaultPlan), Ending>
    ensures { MatchResult result (λ r. HoldsDrill number r.1 (tasks_of r.0) (formula_outcome r.0)) (λ e. e ≡ ending.OutOfMemory) }
{
    let (raw, plan) = generated(alloc, number)?;
    match audit(alloc, raw) {
        Ok(graph) => Ok((graph, plan)),
        Err(_) => Err(Ending::OutOfMemory),
    }
}

// The lines of `drill`.
fn drill_text(alloc: Global, value: &[i64], tasks: u32) -> Result<Text, AllocError>
    requires { length value.now ≡ 1 }
    ensures { IfOk result (IsDrillText value.now tasks) }
{
    let mut text = report(alloc, value, &[], false)?.into_vec();
    put_line(&mut text, "tasks ", u64::from(tasks))?;
    Ok(Text::from_vec(text))
}

/// Runs the graph of a number, with its plan of faults.
pub(crate) fn drilled<R: Threads + Wait + Sync, P: Probe + Drop>(
    rt: &R,
    alloc: Global,
    number: u32,
    terms: &Terms<'_>,
    probes: &mut Vec<P>,
    records: &mut Vec<Record>,
) -> Result<Text, Ending>
    requires terms { AreWithin terms.now }
    requires threads { terms.now.pace ≡ pace.Threads }
    requires lives { terms.now.lives ≡ 65535 }
    requires probes { terms.now.workers ≤ vec_len probes.old }
    requires records { records.old.items ≡ [] }
    ensures { (news : List (List Note)) × Told P.notes probes.old.items probes.new.items news × Drills number records.new.items news result }
{
    let (graph, plan) = drill_of(alloc, number)?;
    let tasks = graph.reachable(alloc)?;
    let value = match filed(rt, alloc, &graph, &plan, terms, probes, records) {
        Ok(value) => value,
        Err(why) => return Err(run_ending(why)),
    };
    let text = drill_text(alloc, value.as_slice(), tasks)?;
    Ok(text)
}
