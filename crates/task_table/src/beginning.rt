//! How a table begins, and how its passes are cut and joined.
ghost use Rattle.std.specs.Prelude.{◌≡◌, ℕ, ◌+◌, ◌-◌, ◌<◌, ◌≤◌, ◌^◌, ◌++◌, [], IfErr, IfOk, length, slice_index, vec_capacity, vec_len};
ghost use Rattle.core_state.specs.Graph.{Sound};
ghost use Rattle.core_state.specs.Views.{joined, less_one, newcomer};
ghost use Rattle.core_steps.specs.Table.{shape_of};
ghost use Rattle.task_table.specs.Kept.{first_view};

use crate::operations::glance;
use crate::pass::Pass;
use crate::rooms::{Rooms, Sizes};
use crate::rule::OnePart;
use crate::table::TaskTable;
use atomic_table::{Refused, Table};
use core_state::{Course, Layout, RowWords};
use core_steps::making::{first_words_of, last_room, new_blocks};
use core_steps::store::Store;
use graph_model::Record;
use std::alloc::{AllocError, Global};
use std::marker::PhantomData;

impl<C: Course> TaskTable<C> {
    /// A table, and its only pass, which begins with the exploring of the root.
    pub fn new(alloc: Global, layout: Layout) -> Result<(TaskTable<C>, Pass<C>), AllocError>
        requires setting { Sound C.setting }
        requires shape { C.setting.shape ≡ shape_of layout }
        requires root { C.setting.graph.root ≡ 2 ^ 63 }
        requires root_last { C.setting.graph.block C.setting.graph.root + 1 ≡ length layout.cells.items }
        requires cells { (b : ℕ) → b < length layout.cells.items → slice_index layout.cells.items b ≡ C.setting.graph.cells b }
        ensures table { IfOk result (λ t. t.1.table ≡ t.0) }
        ensures view { IfOk result (λ t. t.1.view ≡ first_view C.setting) }
    {
        let cells = layout.cells.as_slice();
        let places = RowWords {
            rows: layout.rows,
            notify_words: layout.words_per_row,
        };
        let words = first_words_of(alloc, places, cells.len())?;
        let root = last_room(alloc, cells)?;
        let room = Vec::with_capacity(alloc, cells.len())?;
        let blocks = new_blocks(alloc, cells)?;
        match Table::new(alloc, words.as_slice(), blocks, &()) {
            Ok((table, seat)) => {
                let table = TaskTable {
                    table,
                    sizes: Sizes {
                        places,
                        blocks: cells.len(),
                        course: PhantomData,
                    },
                    rooms: Rooms {
                        words,
                        blocks: room,
                        root,
                        course: PhantomData,
                    },
                };
                let pass = Pass {
                    seat,
                    store: Store::new(alloc),
                    root_replaced: Vec::new(alloc),
                    course: PhantomData,
                };
                Ok((table, pass))
            }
            Err(Refused { slots: _ }) => Err(AllocError),
        }
    }

    /// Cuts off a pass with one part of the table, which knows what the other knows, and has no duties and no
    /// records. It takes no memory, so it never refuses.
    pub fn split_pass(&self, pass: Pass<C>) -> (Pass<C>, Pass<C>)
        requires table { pass.table ≡ self.now }
        requires parts { 1 < pass.view.parts }
        ensures table { (result.0.table ≡ self.now) × (result.0.seat ≡ pass.seat) × (result.1.table ≡ self.now) }
        ensures views { (result.0.view ≡ less_one pass.view) × (result.1.view ≡ newcomer pass.view) }
        ensures records { (result.0.store ≡ pass.store) × (result.0.root_replaced ≡ pass.root_replaced) × (result.0.replaced_room ≡ pass.replaced_room) }
    {
        let mut pass = pass;
        let alloc = *pass.root_replaced.allocator();
        let seat = self.words().split_seat::<OnePart>(&mut pass.seat);
        let other = Pass {
            seat,
            store: Store::new(alloc),
            root_replaced: Vec::new(alloc),
            course: PhantomData,
        };
        (pass, other)
    }

    /// Moves all that the second pass has, which has no block in hand, into the first. At want of memory both
    /// come back as they were, the first with more room perhaps.
    pub fn join_pass(&self, into: Pass<C>, left: Pass<C>) -> Result<Pass<C>, (Pass<C>, Pass<C>)>
        requires table { (into.table ≡ self.now) × (left.table ≡ self.now) }
        requires hands { left.view.hands ≡ [] }
        ensures ok { IfOk result (λ p. (p.table ≡ self.now) × (p.seat ≡ into.seat) × (p.view ≡ joined into.view left.view)) }
        ensures err { IfErr result (λ e. (e.0.table ≡ self.now) × (e.0.seat ≡ into.seat) × (e.0.view ≡ into.view) × (e.1 ≡ left)) }
        ensures records { IfErr result (λ e. (e.0.store.records ≡ into.store.records) × (e.0.root_replaced ≡ into.root_replaced)) }
    {
        let mut into = into;
        if into.reserve_for(&left).is_err() {
            return Err((into, left));
        }
        self.take_in(&mut into, left);
        Ok(into)
    }

    // The same, in the room that there is.
    fn take_in(&self, into: &mut Pass<C>, left: Pass<C>)
        requires table { (into.old.table ≡ self.now) × (left.table ≡ self.now) }
        requires hands { left.view.hands ≡ [] }
        requires store { length left.store.records ≤ into.old.store.room }
        requires list { length left.root_replaced ≤ into.old.replaced_room }
        ensures same { (into.new.table ≡ into.old.table) × (into.new.seat ≡ into.old.seat) }
        ensures view { into.new.view ≡ joined into.old.view left.view }
    {
        let Pass {
            seat,
            store,
            root_replaced,
            course: _,
        } = left;
        self.words().join_seat::<OnePart>(&mut into.seat, seat);
        glance(self.words(), &mut into.seat, 0);
        into.store.note_all(store.as_slice());
        append(&mut into.root_replaced, root_replaced.as_slice());
    }
}

// Appends records in the room that there is.
fn append(list: &mut Vec<Record>, more: &[Record])
    requires { length more.now ≤ vec_capacity list.old - vec_len list.old }
    ensures { list.new.items ≡ list.old.items ++ more.now }
{
    let _ = list.extend_from_slice(more);
}
