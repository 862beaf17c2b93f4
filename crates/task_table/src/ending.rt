//! How a table ends.
ghost use Rattle.std.specs.Prelude.{◌≡◌, ℕ, ◌+◌, ◌≤◌, ◌<◌, [], cond, eqb, length, slice_index, slice_index_or, vec_capacity, None};
ghost use Rattle.std.specs.Mem.Slots.{slots_items, slots_len, IsFull};
ghost use Rattle.core_state.specs.Views.{all_parts};
ghost use Rattle.task_table.specs.Ends.{IsLast};

use crate::pass::Pass;
use crate::rooms::Rooms;
use crate::table::TaskTable;
use atomic_table::Closed as Remains;
use core_state::{BlockCells, Course};
use core_steps::Closed;
use core_steps::making::written_cells;
use std::alloc::Global;

impl<C: Course> TaskTable<C> {
    /// Ends the work at a table whose only pass this is. It takes no memory.
    pub fn close_with(self, pass: Pass<C>) -> Closed<C>
        requires table { pass.table ≡ self }
        requires only { pass.view.parts ≡ all_parts }
        ensures views { IsLast C.setting pass.view result.words.items result.blocks.items result.records.items result.root_replaced.items }
        ensures records { result.records.items ≡ pass.store.records }
        ensures replaced { result.root_replaced.items ≡ pass.root_replaced }
    {
        let TaskTable {
            table,
            sizes,
            rooms,
        } = self;
        let Pass {
            seat,
            store,
            root_replaced,
            course,
        } = pass;
        let Rooms {
            words,
            blocks,
            root,
            course: _,
        } = rooms;
        let turns = sizes.places().turn(0);
        let closed = table.close_with(seat);
        let words = copied_words(&closed, words);
        let blocks = home_blocks(closed, words.as_slice(), turns, blocks);
        let last = blocks.len() - 1;
        Closed {
            pending: words[0],
            stopped: words[1] == 1,
            root: written_cells(blocks.as_slice(), last, root),
            records: store.into_records(),
            root_replaced,
            words,
            blocks,
            course,
        }
    }
}

// The words of a closed table, in room for as many.
fn copied_words(closed: &Remains<Option<BlockCells>, Global>, room: Vec<u64>) -> Vec<u64>
    requires full { IsFull closed.now.words }
    requires room { length room.items ≡ slots_len closed.now.words }
    ensures { result.items ≡ slots_items closed.now.words }
{
    let mut words = room;
    for i in 0..words.len() {
        words[i] = closed.word(i);
    }
    words
}

// The blocks of a closed table that are at home, which their turn words tell, in room for as many.
fn home_blocks(
    closed: Remains<Option<BlockCells>, Global>,
    words: &[u64],
    turns: usize,
    room: Vec<Option<BlockCells>>,
) -> Vec<Option<BlockCells>>
    requires full { IsFull closed.slots }
    requires words { turns + slots_len closed.slots ≤ length words.now }
    requires room { (room.items ≡ []) × (slots_len closed.slots ≤ vec_capacity room) }
    ensures length { length result.items ≡ slots_len closed.slots }
    ensures home { (b : ℕ) → b < slots_len closed.slots → slice_index_or result.items b None ≡ cond (eqb (slice_index words.now (turns + b)) 0) (slice_index_or (slots_items closed.slots) b None) None }
{
    let mut closed = closed;
    let mut blocks = room;
    let mut i = 0;
    while i < closed.slot_count() {
        let home = closed.take(i);
        blocks.push_reserved(at_home(home, words[turns + i]));
        i += 1;
    }
    closed.free();
    blocks
}

// What a slot holds whose turn word is 0; another's block was in hand.
fn at_home(slot: Option<BlockCells>, turn: u64) -> Option<BlockCells>
    ensures { result ≡ cond (eqb turn 0) slot None }
{
    if turn == 0 { slot } else { None }
}
