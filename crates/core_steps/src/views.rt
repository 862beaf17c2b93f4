//! What the workers know and hold. It has no bytes.
use crate::kinds::{BlockKind, Kind};
use core_state::{BlockCells, Course};
use ghost_value::{Ghost, Gives};
use std::marker::{Model, PhantomData};

/// The views of all workers. No value of it is made.
pub(crate) struct Views;

impl Model for Views {
    ghost use Rattle.std.specs.Prelude.{List, []};
    ghost use Rattle.core_state.specs.declared.views.View.{View};

    ghost Value = { List View };

    ghost view = { λ _. [] };
}

/// The views before a step, the worker that makes it, and the number that it found.
#[derive(Drop)]
pub(crate) struct Stepping<'a> {
    pub(crate) before: &'a Ghost<Views>,
    pub(crate) worker: usize,
    pub(crate) kind: Kind,
    pub(crate) found: u64,
}

/// The views after a step.
pub(crate) struct Stepped<C: Course> {
    course: PhantomData<C>,
}

impl<'a, C: Course> Gives<Stepping<'a>, Views> for Stepped<C> {
    ghost use Rattle.std.specs.Prelude.{slice_set};
    ghost use Rattle.core_state.specs.Events.{after};
    ghost use Rattle.core_steps.specs.Kinds.{event_of};
    ghost use Rattle.core_steps.specs.Table.{view_in};

    ghost value = { λ s. slice_set s.before.now s.worker (after C.setting (event_of (view_in s.before.now s.worker) s.kind) s.found (view_in s.before.now s.worker)) };
}

/// The views before a block is taken or given, and what it holds then.
#[derive(Drop)]
pub(crate) struct BlockStepping<'a> {
    pub(crate) before: &'a Ghost<Views>,
    pub(crate) worker: usize,
    pub(crate) kind: BlockKind,
    pub(crate) block: u32,
    pub(crate) cells: &'a BlockCells,
    pub(crate) found: u64,
}

impl<'a, C: Course> Gives<BlockStepping<'a>, Views> for Stepped<C> {
    ghost use Rattle.std.specs.Prelude.{slice_set};
    ghost use Rattle.core_state.specs.Events.{after};
    ghost use Rattle.core_steps.specs.Kinds.{block_event};
    ghost use Rattle.core_steps.specs.Table.{view_in};

    ghost value = { λ s. slice_set s.before.now s.worker (after C.setting (block_event (view_in s.before.now s.worker) s.kind s.block s.cells.now) s.found (view_in s.before.now s.worker)) };
}

/// The views before a result was made, and whose it is.
#[derive(Drop)]
pub(crate) struct Computing<'a> {
    pub(crate) before: &'a Ghost<Views>,
    pub(crate) worker: usize,
    pub(crate) key: u64,
    pub(crate) life: u32,
}

impl<'a, C: Course> Gives<Computing<'a>, Views> for Stepped<C> {
    ghost use Rattle.std.specs.Prelude.{slice_set};
    ghost use Rattle.core_state.specs.Effects.{after_computed};
    ghost use Rattle.core_steps.specs.Table.{view_in};

    ghost value = { λ s. slice_set s.before.now s.worker (after_computed s.key s.life (view_in s.before.now s.worker)) };
}

/// The views at the beginning.
pub(crate) struct First<C: Course> {
    course: PhantomData<C>,
}

impl<C: Course> Gives<u32, Views> for First<C> {
    ghost use Rattle.core_steps.specs.Table.{first_views};

    ghost value = { λ workers. first_views C.setting workers };
}
