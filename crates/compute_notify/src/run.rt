ghost use Rattle.std.specs.Prelude.{◌≡◌};
ghost use Rattle.compute_notify.specs.Running.{life_limit};

use crate::scratch::Scratch;
use core_state::{GREATEST_LIFE, ROOT};
use core_steps::Hints;
use graph_model::{FaultPlan, Key};
use std::alloc::AllocError;

/// What a task's turns share with those of other tasks.
pub struct Run<'a, G, Ke> {
    pub graph: &'a G,
    pub kernel: &'a mut Ke,
    pub plan: &'a FaultPlan,
    pub lives: u32,
    pub scratch: &'a mut Scratch,
    pub hints: &'a mut Hints,
}

impl<G, Ke> Drop for Run<'_, G, Ke> {
    fn drop(self)
        ensures kernel { self.exit.1.0.now ≡ self.entry.kernel.now }
        ensures scratch { self.exit.1.1.1.1.0.now ≡ self.entry.scratch.now }
        ensures hints { self.exit.1.1.1.1.1.0.now ≡ self.entry.hints.now }
    {
        let Run {
            graph: _,
            kernel: _,
            plan: _,
            lives: _,
            scratch: _,
            hints: _,
        } = self;
    }
}

/// The graph, the plan and the greatest life of a run.
pub(crate) struct Terms<'a, G> {
    pub graph: &'a G,
    pub plan: &'a FaultPlan,
    pub lives: u32,
}

impl<G> Clone for Terms<'_, G> {
    fn clone(&self) -> Result<Self, AllocError> {
        Ok(*self)
    }
}

impl<G> Copy for Terms<'_, G> {}

/// The greatest life that a task may have in a run.
pub(crate) fn greatest_life(key: Key, lives: u32) -> u32
    ensures { result ≡ life_limit key.0 lives }
{
    if key == ROOT { GREATEST_LIFE } else { lives }
}
