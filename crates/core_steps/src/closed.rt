//! What is left of a table.
ghost use Rattle.std.specs.Prelude.{◌≡◌, ◌==◌, List, ℤ, Option, slice_index};
ghost use Rattle.core_state.specs.declared.views.View.{View};
ghost use Rattle.core_steps.specs.Table.{IsClosing, ShowsRoot};

use core_state::{BlockCells, Course};
use graph_model::{Cells, Record};
use std::marker::PhantomData;

/// A table on which nobody works any more. There are views with which its words, its blocks and its
/// records are as the core's invariant says.
#[derive(Drop)]
pub struct Closed<C: Course> {
    pub pending: u64,
    pub stopped: bool,
    /// The cells of the root's block, or None where it was never written.
    pub root: Option<Cells>,
    /// All records, but of the root's none.
    pub records: Vec<Record>,
    /// The root's Replaced records.
    pub root_replaced: Vec<Record>,
    pub words: Vec<u64>,
    /// The blocks at home.
    pub blocks: Vec<Option<BlockCells>>,
    pub course: PhantomData<C>,
    ghost pending_is: { pending ≡ slice_index words.items 0 },
    ghost stopped_is: { stopped ≡ (slice_index words.items 1 == 1) },
    ghost root_is: { ∥ ShowsRoot C.setting blocks.items root ∥₁ },
    ghost meets: { ∥ ((views : List View) × IsClosing C.setting views words.items blocks.items records.items root_replaced.items) ∥₁ },
}
