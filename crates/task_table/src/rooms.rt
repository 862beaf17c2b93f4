//! The measures of a table, and the room for what it leaves.
use core_state::{BlockCells, Course, RowWords};
use std::marker::{Model, PhantomData};

/// The rows of a table, the notify words of each and the number of blocks.
#[derive(Drop)]
pub(crate) struct Sizes<C: Course> {
    pub(crate) places: RowWords,
    pub(crate) blocks: usize,
    pub(crate) course: PhantomData<C>,
}

impl<C: Course> Model for Sizes<C> {
    ghost use Rattle.core_state.specs.RowWords.{shape_with};
    ghost use Rattle.core_state.specs.Words.{Shape};
    ghost use Rattle.task_table.specs.Ends.{IsFor};

    ghost Value = { Shape };

    ghost view = { λ s. shape_with s.places s.blocks };

    ghost invariant = { λ s. IsFor C.setting s.places s.blocks };
}

impl<C: Course> Sizes<C> {
    ghost use Rattle.std.specs.Prelude.{◌≡◌};
    ghost use Rattle.core_state.specs.RowWords.{shape_with};

    /// Where the words stand.
    pub(crate) fn places(&self) -> RowWords
        ensures places { shape_with result C.setting.shape.blocks ≡ C.setting.shape }
        ensures shape { self.now ≡ C.setting.shape }
    {
        self.places
    }
}

/// The room for what a table leaves.
#[derive(Drop)]
pub(crate) struct Rooms<C: Course> {
    pub(crate) words: Vec<u64>,
    pub(crate) blocks: Vec<Option<BlockCells>>,
    pub(crate) root: Vec<i64>,
    pub(crate) course: PhantomData<C>,
}

impl<C: Course> Model for Rooms<C> {
    ghost use Rattle.std.specs.Prelude.{◌≡◌, ◌≤◌, ℕ, [], length, vec_len, vec_capacity};
    ghost use Rattle.core_steps.specs.Table.{word_count};

    ghost Value = { ℕ };

    ghost view = { λ r. vec_capacity r.blocks };

    ghost invariant = { λ r. (length r.words.items ≡ word_count C.setting.shape) × (r.blocks.items ≡ []) × (C.setting.shape.blocks ≤ vec_capacity r.blocks) × (length r.root.items ≡ C.setting.graph.cells (C.setting.graph.block C.setting.graph.root)) };
}
