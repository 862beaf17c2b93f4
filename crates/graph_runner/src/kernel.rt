ghost use Rattle.formula_text.specs.Trees.{HasInputs};
ghost use Rattle.graph_model.specs.Graph.{IsTask};
ghost use Rattle.acyclic_audit.specs.Views.{graph};

use crate::probed::{Noting, Probed};
use acyclic_audit::FileGraph;
use graph_model::{Inputs, Kernel, Key, Probe};
use std::alloc::AllocError;

/// Computes the tasks of a file's graph by their formulas. Each call is noted on its probe.
#[derive(Drop)]
pub struct FormulaKernel<'a, P> {
    graph: &'a FileGraph,
    probe: P,
}

impl<'a, P> FormulaKernel<'a, P> {
    ghost use Rattle.std.specs.Prelude.{◌≡◌};

    pub fn new(graph: &'a FileGraph, probe: P) -> FormulaKernel<'a, P>
        ensures graph { result.graph.now ≡ graph.now }
        ensures probe { result.probe ≡ probe }
    {
        FormulaKernel { graph, probe }
    }

    /// Gives the probe back.
    pub fn into_probe(self) -> P
        ensures { result ≡ self.entry.probe }
    {
        let FormulaKernel { graph: _, probe } = self;
        probe
    }
}

impl<'a, P: Probe> Kernel for FormulaKernel<'a, P> {
    ghost use Rattle.graph_runner.specs.Formulas.{formula_outcome, FitsFormula};

    ghost outcome = { λ k. formula_outcome k.graph.now };

    ghost fits = { λ k. FitsFormula k.graph.now };

    ghost calls = { λ k. P.notes k.probe };

    ghost spare = { λ k. P.spare k.probe };

    fn reserve(&mut self, n: u32) -> Result<(), AllocError> {
        self.probe.reserve(n)
    }

    fn compute(&mut self, key: Key, life: u32, inputs: &Inputs, out: &mut [i64]) {
        out[0] = self.graph.formula(key).eval(inputs.cells());
        self.probe.note(key, life);
    }
}

impl<'a, P: Probe + Drop> Probed<&'a FileGraph, P> for FormulaKernel<'a, P> {
    ghost use Rattle.graph_runner.specs.Formulas.{formula_outcome, FitsFormula};

    ghost makes = { λ g. formula_outcome g.now };

    ghost takes = { λ g. FitsFormula g.now };

    fn probed(graph: &'a FileGraph, probe: P) -> Self {
        FormulaKernel::new(graph, probe)
    }
}

impl<'a, P: Probe + Drop> Noting<P> for FormulaKernel<'a, P> {
    fn unprobed(self) -> P {
        self.into_probe()
    }
}
