//! The least weights of walks in a source's matrix, by workers.

ghost use Rattle.std.specs.Prelude.{◌≡◌, ◌≤◌, [], List, vec_len};
ghost use Rattle.graph_model.specs.Notes.{Note};
ghost use Rattle.apsp_graph.specs.Kernels.{FitsPath, path_outcome};
ghost use Rattle.apsp_graph.specs.Views.{graph as tasks_of};
ghost use Rattle.worker_pool.specs.Calling.{CanRun};
ghost use Rattle.graph_runner.specs.Endings.{matrix_ending};
ghost use Rattle.graph_runner.specs.Notes.{Told};
ghost use Rattle.graph_runner.specs.Solving.{Reads, Solves};
ghost use Rattle.graph_runner.specs.Terms.{AreWithin};
ghost use Rattle.graph_runner.specs.declared.terms.Pace.TheVariants as pace;

use crate::ending::{Ending, run_ending};
use crate::load::taken;
use crate::probed::{Noting, Probed, kernels_of};
use crate::terms::Terms;
use crate::workers::run_by_workers;
use apsp_graph::{MatrixFault, PathGraph, PathKernel, matrix_text, read_matrix};
use graph_model::{FaultPlan, Probe, Record, Text};
use io_edge::Source;
use std::alloc::Global;
use std::sync::Wait;
use std::thread::Threads;

impl<'a, P: Probe + Drop> Probed<&'a PathGraph, P> for PathKernel<'a, P> {
    ghost use Rattle.apsp_graph.specs.Kernels.{path_outcome, FitsPath};

    ghost makes = { λ g. path_outcome g.now };

    ghost takes = { λ g. FitsPath g.now };

    fn probed(graph: &'a PathGraph, probe: P) -> Self {
        PathKernel::new(graph, probe)
    }
}

impl<'a, P: Probe + Drop> Noting<P> for PathKernel<'a, P> {
    fn unprobed(self) -> P {
        self.into_probe()
    }
}

// What a fault of the matrix comes to.
fn matrix_ending(fault: MatrixFault) -> Ending
    ensures { result ≡ matrix_ending fault }
{
    match fault {
        MatrixFault::OutOfMemory => Ending::OutOfMemory,
        fault => Ending::Matrix { fault },
    }
}

// The graph and the plan of the matrix that the source holds.
fn matrix<S: Source>(alloc: Global, source: &mut S) -> Result<(PathGraph, FaultPlan), Ending>
    ensures { Reads (record { left = S.left source.old; left_after = S.left source.new; faults = S.faults source.old; faults_after = S.faults source.new }) result }
{
    let bytes = taken(alloc, source)?;
    match read_matrix(alloc, bytes.as_slice()) {
        Ok(read) => Ok(read),
        Err(fault) => Err(matrix_ending(fault)),
    }
}

// Kernels can run the graph of each matrix. It does nothing.
fn matrix_runs(graph: &PathGraph)
    ensures { CanRun (tasks_of graph.now) (path_outcome graph.now) (FitsPath graph.now) }
{
    let _ = graph.vertices();
}

/// Runs the graph of the matrix that the source holds, with the plan of faults below it.
pub(crate) fn solved<R: Threads + Wait + Sync, S: Source, P: Probe + Drop>(
    rt: &R,
    alloc: Global,
    source: &mut S,
    terms: &Terms<'_>,
    probes: &mut Vec<P>,
    records: &mut Vec<Record>,
) -> Result<Text, Ending>
    requires terms { AreWithin terms.now }
    requires threads { terms.now.pace ≡ pace.Threads }
    requires probes { terms.now.workers ≤ vec_len probes.old }
    requires records { records.old.items ≡ [] }
    ensures { (news : List (List Note)) × Told P.notes probes.old.items probes.new.items news
        × Solves (record { left = S.left source.old; left_after = S.left source.new; faults = S.faults source.old; faults_after = S.faults source.new }) terms.now.lives records.new.items news result }
{
    let (graph, plan) = matrix(alloc, source)?;
    matrix_runs(&graph);
    let kernels: Vec<PathKernel<'_, P>> = kernels_of(alloc, &graph, probes, terms.workers)?;
    let value = match run_by_workers(rt, alloc, &graph, &plan, terms, kernels, probes, records) {
        Ok(value) => value,
        Err(why) => return Err(run_ending(why)),
    };
    let text = matrix_text(alloc, &graph, value.as_slice())?;
    Ok(text)
}
