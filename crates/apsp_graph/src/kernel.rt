//! The kernel of a matrix's graph.

use crate::graph::PathGraph;
use crate::tiles::compute_task;
use graph_model::{Inputs, Kernel, Key, Probe};
use std::alloc::AllocError;

/// Computes the tasks of a matrix's graph, without memory. Each call is noted on its probe.
#[derive(Drop)]
pub struct PathKernel<'a, P> {
    graph: &'a PathGraph,
    probe: P,
}

impl<'a, P> PathKernel<'a, P> {
    ghost use Rattle.std.specs.Prelude.{◌≡◌};

    pub fn new(graph: &'a PathGraph, probe: P) -> PathKernel<'a, P>
        ensures graph { result.graph.now ≡ graph.now }
        ensures probe { result.probe ≡ probe }
    {
        PathKernel { graph, probe }
    }

    /// Gives the probe back.
    pub fn into_probe(self) -> P
        ensures { result ≡ self.entry.probe }
    {
        let PathKernel { graph: _, probe } = self;
        probe
    }
}

impl<'a, P: Probe> Kernel for PathKernel<'a, P> {
    ghost use Rattle.apsp_graph.specs.Kernels.{path_outcome, FitsPath};

    ghost outcome = { λ k. path_outcome k.graph.now };

    ghost fits = { λ k. FitsPath k.graph.now };

    ghost calls = { λ k. P.notes k.probe };

    ghost spare = { λ k. P.spare k.probe };

    fn reserve(&mut self, n: u32) -> Result<(), AllocError> {
        self.probe.reserve(n)
    }

    fn compute(&mut self, key: Key, life: u32, inputs: &Inputs, out: &mut [i64]) {
        compute_task(self.graph, key, inputs, out);
        self.probe.note(key, life);
    }
}
