//! Kernels that note their calls on probes.

ghost use Rattle.std.specs.Prelude.{◌≡◌, ◌+◌, ◌≤◌, ◌↔◌, ◌++◌, ℕ, ℤ, List, map, vec_capacity, vec_len, IfOk, OnErr};
ghost use Rattle.graph_model.specs.Serial.{Outcome};
ghost use Rattle.graph_runner.specs.Workers.{AreKernels};

use graph_model::{Kernel, Probe};
use std::alloc::{AllocError, Global};

/// A kernel that notes each call on its probe.
pub trait Noting<P: Probe>: Kernel + Drop {
    /// Gives the probe back, which was told of each call.
    fn unprobed(self) -> P
        ensures { P.notes result ≡ Self.calls self };
}

/// A kernel for the tasks of a graph, which it borrows as `B`, that notes each call on its probe.
pub trait Probed<B, P: Probe>: Noting<P> {
    // What such a kernel makes of a graph's tasks, and from which inputs.
    ghost makes: { B → Outcome };

    ghost takes: { B → ℕ → List (List ℤ) → Type 0 };

    /// A kernel for this graph, with this probe.
    fn probed(graph: B, probe: P) -> Self
        ensures makes { Self.outcome result ≡ makes graph }
        ensures takes { (k : ℕ) (lists : List (List ℤ)) → Self.fits result k lists ↔ takes graph k lists }
        ensures calls { Self.calls result ≡ P.notes probe };
}

/// A kernel for each of so many probes, which are taken from the front.
pub(crate) fn kernels_of<B: Copy, P: Probe + Drop, Ke: Probed<B, P>>(
    alloc: Global,
    graph: B,
    probes: &mut Vec<P>,
    count: u32,
) -> Result<Vec<Ke>, AllocError>
    requires { count ≤ vec_len probes.old }
    ensures kernels { IfOk result (λ kernels. AreKernels (Ke.makes graph) (Ke.takes graph) Ke.outcome Ke.fits count kernels.items) }
    ensures front { IfOk result (λ kernels. map Ke.calls kernels.items ++ map P.notes probes.new.items ≡ map P.notes probes.old.items) }
    ensures refused { OnErr result (probes.new.items ≡ probes.old.items) }
    ensures room { IfOk result (λ kernels. vec_len kernels + vec_len probes.new ≤ vec_capacity probes.new) }
{
    let mut kernels = Vec::with_capacity(alloc, count as usize)?;
    for _ in 0..count {
        let _ = kernels.push(Ke::probed(graph, probes.remove(0)));
    }
    Ok(kernels)
}

/// Puts the probes of kernels back before the others.
pub(crate) fn put_back<P: Probe + Drop, Ke: Noting<P>>(kernels: Vec<Ke>, probes: &mut Vec<P>)
    requires { vec_len kernels + vec_len probes.old ≤ vec_capacity probes.old }
    ensures { map P.notes probes.new.items ≡ map Ke.calls kernels.items ++ map P.notes probes.old.items }
{
    let mut kernels = kernels;
    while let Some(kernel) = kernels.pop() {
        let _ = probes.insert(0, kernel.unprobed());
    }
}
