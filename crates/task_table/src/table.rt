//! The shared table, and where its words stand.
ghost use Rattle.std.specs.Prelude.{◌≡◌, ◌<◌};
ghost use Rattle.core_state.specs.Words.{place_of, key as key_spot, descriptor as descriptor_spot, notify as notify_spot, recovery as recovery_spot, posted, turn as turn_spot};
ghost use Rattle.task_table.specs.Moments.{IsWide};

use crate::rooms::{Rooms, Sizes};
use crate::rule::{Law, Words};
use atomic_table::Table;
use core_state::{BlockCells, Course, Job, View};
use std::alloc::Global;
use std::marker::Model;

/// The words and blocks of one run, on which many seats step at once. It is `Sync`.
#[derive(Drop)]
pub struct TaskTable<C: Course> {
    pub(crate) table: Table<Option<BlockCells>, View, (), Law<C>, Global>,
    pub(crate) sizes: Sizes<C>,
    pub(crate) rooms: Rooms<C>,
}

impl<C: Course> Model for TaskTable<C> {
    ghost use Rattle.std.specs.Prelude.{◌≡◌};
    ghost use Rattle.atomic_table.specs.Seated.{TableId};
    ghost use Rattle.core_steps.specs.Table.{word_count};

    ghost Value = { TableId };

    ghost view = { λ t. t.table.shared.table_id };

    ghost invariant = { λ t. (t.table.shared.table_id.words ≡ word_count t.sizes) × (t.table.shared.table_id.slots ≡ t.sizes.blocks) };
}

impl<C: Course> TaskTable<C> {
    pub(crate) fn words(&self) -> &Words<C>
        ensures table { result.now.table_id ≡ self.now }
        ensures wide { IsWide C.setting self.now }
    {
        let _ = self.rows();
        &self.table.shared
    }

    pub(crate) fn rows(&self) -> u32
        ensures rows { result ≡ C.setting.shape.rows }
        ensures wide { IsWide C.setting self.now }
    {
        self.sizes.places().rows
    }

    /// Where the key word of a row stands.
    pub(crate) fn key_place(&self, row: u32) -> usize
        requires { row < C.setting.shape.rows }
        ensures { result ≡ place_of C.setting.shape (key_spot row) }
    {
        self.sizes.places().key(row)
    }

    /// Where the descriptor of a row stands.
    pub(crate) fn descriptor_place(&self, row: u32) -> usize
        requires { row < C.setting.shape.rows }
        ensures { result ≡ place_of C.setting.shape (descriptor_spot row) }
    {
        self.sizes.places().descriptor(row)
    }

    /// Where a notify word of a row stands.
    pub(crate) fn notify_place(&self, row: u32, word: u32) -> usize
        requires row { row < C.setting.shape.rows }
        requires word { word < C.setting.shape.notify_words }
        ensures { result ≡ place_of C.setting.shape (notify_spot row word) }
    {
        self.sizes.places().notify(row, word)
    }

    /// Where the recovery word of a row stands.
    pub(crate) fn recovery_place(&self, row: u32) -> usize
        requires { row < C.setting.shape.rows }
        ensures { result ≡ place_of C.setting.shape (recovery_spot row) }
    {
        self.sizes.places().recovery(row)
    }

    /// Where the word of a row stands in which a job is posted.
    pub(crate) fn job_place(&self, row: u32, job: Job) -> usize
        requires { row < C.setting.shape.rows }
        ensures { result ≡ place_of C.setting.shape (posted job row) }
    {
        self.sizes.places().job(row, job)
    }

    /// Where the turn word of a block stands.
    pub(crate) fn turn_place(&self, block: u32) -> usize
        ensures { result ≡ place_of C.setting.shape (turn_spot block) }
    {
        self.sizes.places().turn(block)
    }
}
