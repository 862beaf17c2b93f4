//! The table as vectors. What the workers know and hold has no bytes.
use crate::closed::Closed;
use crate::kinds::{BlockKind, Kind, Touched};
use crate::making::{
    all_records, first_words_of, joined_records, keep, last_room, new_blocks, new_stores,
    written_cells,
};
use crate::store::Store;
use crate::trace;
use crate::views::{BlockStepping, Computing, First, Stepped, Stepping, Views};
use core_state::{BlockCells, Course, Layout, RowWords};
use ghost_value::Ghost;
use graph_model::{Key, Record};
use std::alloc::{AllocError, Global};
use std::marker::{Model, PhantomData};

/// The words, the blocks at home and the records of a table that one thread keeps.
#[derive(Drop)]
pub struct PlainTable<C: Course> {
    words: Vec<u64>,
    views: Ghost<Views>,
    blocks: Vec<Option<BlockCells>>,
    stores: Vec<Store>,
    root_replaced: Vec<Record>,
    root_cells: Vec<i64>,
    places: RowWords,
    course: PhantomData<C>,
}

impl<C: Course> Model for PlainTable<C> {
    ghost use Rattle.std.specs.Prelude.{length, ◌-◌, vec_len, vec_capacity};
    ghost use Rattle.core_state.specs.RowWords.{shape_with};
    ghost use Rattle.core_steps.specs.Table.{Plain, IsSound};

    ghost Value = { Plain };

    ghost view = { λ t. record { words = t.words.items; views = t.views; blocks = t.blocks.items; stores = t.stores.items; root_replaced = t.root_replaced.items; shape = shape_with t.places (length t.blocks.items); root_room = length t.root_cells.items; replaced_room = vec_capacity t.root_replaced - vec_len t.root_replaced } };

    ghost invariant = { λ t. IsSound C.setting (record { words = t.words.items; views = t.views; blocks = t.blocks.items; stores = t.stores.items; root_replaced = t.root_replaced.items; shape = shape_with t.places (length t.blocks.items); root_room = length t.root_cells.items; replaced_room = vec_capacity t.root_replaced - vec_len t.root_replaced }) };
}

impl<C: Course> PlainTable<C> {
    ghost use Rattle.std.specs.Prelude.{◌≡◌, IfOk, OnOk, OnErr, Bool, false, true, [], Some, None, ◌≤◌, ◌<◌, ◌+◌, ◌^◌, ℕ, length, nat_lt, slice_index, slice_index_or};
    ghost use Rattle.core_state.specs.Graph.{Sound};
    ghost use Rattle.core_state.specs.Events.{Can, at, left as left_by};
    ghost use Rattle.core_state.specs.Outcome.{entries};
    ghost use Rattle.core_state.specs.RowWords.{shape_with};
    ghost use Rattle.core_state.specs.Words.{turn};
    ghost use Rattle.graph_model.specs.declared.record.Record.{Record};
    ghost use Rattle.core_steps.specs.Kinds.{block_event, event_of, gives, moves_block};
    ghost use Rattle.core_steps.specs.Table.{IsSound, IsFirst, IsGathered, IsClosing, IsTableStep, IsWordAt, stored, home_at, shape_of, view_at, stepped_by, taken_by, given_by, computed_by, as_list, entered, spare_of, IsAll, HasRoom};

    /// A table for so many workers, 1 to 64. The first begins with the exploring of the root.
    pub fn new(alloc: Global, layout: Layout, workers: u32) -> Result<PlainTable<C>, AllocError>
        requires setting { Sound C.setting }
        requires shape { C.setting.shape ≡ shape_of layout }
        requires root { C.setting.graph.root ≡ 2 ^ 63 }
        requires root_last { C.setting.graph.block C.setting.graph.root + 1 ≡ length layout.cells.items }
        requires cells { (b : ℕ) → b < length layout.cells.items → slice_index layout.cells.items b ≡ C.setting.graph.cells b }
        requires workers { (1 ≤ workers) × (workers ≤ 64) }
        ensures { IfOk result (λ t. IsFirst C.setting workers t) }
    {
        let cells = layout.cells.as_slice();
        let places = RowWords {
            rows: layout.rows,
            notify_words: layout.words_per_row,
        };
        let words = first_words_of(alloc, places, cells.len())?;
        let blocks = new_blocks(alloc, cells)?;
        let root_cells = last_room(alloc, cells)?;
        let stores = new_stores(alloc, workers as usize)?;
        Ok(PlainTable {
            words,
            views: Ghost::of::<u32, First<C>>(&workers),
            blocks,
            stores,
            root_replaced: Vec::new(alloc),
            root_cells,
            places,
            course: PhantomData,
        })
    }

    /// Moves all records to the first worker. A refusal changes nothing.
    pub fn gather(&mut self) -> Result<(), AllocError>
        ensures table { self.new ≡ record self.old { stores = self.new.stores } }
        ensures records { (p : Record → Bool) → stored p self.new.stores ≡ stored p self.old.stores }
        ensures ok { OnOk result (IsGathered self.new.stores) }
        ensures room { OnOk result (HasRoom self.new.stores) }
        ensures err { OnErr result (self.new ≡ self.old) }
    {
        let workers = self.worker_count();
        let alloc = *self.stores.allocator();
        let all = all_records(alloc, self.stores.as_slice())?;
        let mut stores = new_stores(alloc, workers)?;
        stores[0] = Store::of(all);
        self.stores = stores;
        Ok(())
    }

    /// Ends the work at a table whose first worker has room for all records. It takes no memory.
    pub fn close(self) -> Closed<C>
        requires { HasRoom self.stores }
        ensures views { IsClosing C.setting self.views result.words.items result.blocks.items result.records.items result.root_replaced.items }
        ensures words { result.words.items ≡ self.words }
        ensures blocks { result.blocks.items ≡ self.blocks }
        ensures records { IsAll result.records.items self.stores }
        ensures replaced { result.root_replaced.items ≡ self.root_replaced }
    {
        let root = self.root_block();
        let PlainTable {
            words,
            views: _,
            blocks,
            stores,
            root_replaced,
            root_cells,
            places: _,
            course,
        } = self;
        Closed {
            pending: words[0],
            stopped: words[1] == 1,
            root: written_cells(blocks.as_slice(), root, root_cells),
            records: joined_records(stores),
            root_replaced,
            words,
            blocks,
            course,
        }
    }

    /// Whether the root's block is at home and was written.
    pub fn root_written(&self) -> bool
        ensures { result ≡ nat_lt 0 (home_at self.now.blocks (C.setting.graph.block C.setting.graph.root)).tag }
    {
        match &self.blocks[self.root_block()] {
            Some(home) => home.tag > 0,
            None => false,
        }
    }

    // The last block is the root's.
    fn root_block(&self) -> usize
        ensures block { result ≡ C.setting.graph.block C.setting.graph.root }
        ensures within { result < length self.now.blocks }
        ensures sound { IsSound C.setting self.now }
    {
        self.blocks.len() - 1
    }

    fn worker_count(&self) -> usize
        ensures count { result ≡ length self.now.stores }
        ensures some { 0 < result }
        ensures sound { IsSound C.setting self.now }
    {
        self.stores.len()
    }

    /// The words as they stand.
    pub(crate) fn standing(&self) -> Ghost<trace::Words>
        ensures { result ≡ self.now.words }
    {
        Ghost::of::<trace::Standing<'_>, trace::Found>(&trace::Standing { words: &self.words })
    }

    /// Makes room for so many records of a worker.
    #[tactic(auto, using(crate::proofs::Recording::min_grows, crate::proofs::Recording::min_least))]
    pub(crate) fn reserve(&mut self, worker: usize, n: u32) -> Result<(), AllocError>
        requires worker { worker < length self.old.views }
        ensures views { self.new.views ≡ self.old.views }
        ensures words { self.new.words ≡ self.old.words }
        ensures more { spare_of self.old worker ≤ spare_of self.new worker }
        ensures room { OnOk result (n ≤ spare_of self.new worker) }
        ensures sound { IsSound C.setting self.new }
    {
        let _ = self.rows();
        prove!(worker < self.stores.len());
        self.root_replaced.reserve(n as usize)?;
        self.stores[worker].reserve(n as usize)
    }

    /// The word at a place of the list.
    pub(crate) fn touched(&self, place: usize) -> Touched
        requires { place < length self.now.words }
        ensures place { result.at ≡ place }
        ensures found { result.found ≡ slice_index self.now.words place }
    {
        Touched {
            at: place,
            found: self.words[place],
        }
    }

    // The one place where a word and the views change, and nothing is recorded.
    fn change(&mut self, worker: usize, kind: Kind, word: Touched, left: u64)
        requires word { word.at < length self.old.words }
        requires sound { IsSound C.setting (stepped_by C.setting self.old worker kind word.at word.found left) }
        ensures table { self.new ≡ stepped_by C.setting self.old worker kind word.at word.found left }
        ensures before { IsSound C.setting self.old }
    {
        let views = Ghost::of::<Stepping<'_>, Stepped<C>>(&Stepping {
            before: &self.views,
            worker,
            kind,
            found: word.found,
        });
        self.words[word.at] = left;
        self.views = views;
    }

    // The same with what is kept of a record, in the room that there is.
    #[tactic(auto, using(crate::proofs::Recording::store_room, crate::proofs::Recording::list_room))]
    fn change_with(
        &mut self,
        worker: usize,
        kind: Kind,
        word: Touched,
        left: u64,
        entry: Option<Record>,
    )
        requires word { word.at < length self.old.words }
        requires worker { worker < length self.old.stores }
        requires room { 0 < spare_of self.old worker }
        requires sound { IsSound C.setting (entered (2 ^ 63) worker entry (stepped_by C.setting self.old worker kind word.at word.found left)) }
        ensures table { self.new ≡ entered (2 ^ 63) worker entry (stepped_by C.setting self.old worker kind word.at word.found left) }
        ensures before { IsSound C.setting self.old }
    {
        let views = Ghost::of::<Stepping<'_>, Stepped<C>>(&Stepping {
            before: &self.views,
            worker,
            kind,
            found: word.found,
        });
        self.words[word.at] = left;
        self.views = views;
        keep(&mut self.stores[worker], &mut self.root_replaced, entry);
    }

    /// A step of which nothing is recorded.
    pub(crate) fn step(&mut self, worker: usize, kind: Kind, word: Touched, left: u64)
        requires worker { worker < length self.old.views }
        requires can { Can C.setting (view_at self.old worker) (event_of (view_at self.old worker) kind) }
        requires word { IsWordAt self.old (at (event_of (view_at self.old worker) kind)) word }
        requires calm { moves_block (event_of (view_at self.old worker) kind) word.found ≡ false }
        requires left { left ≡ left_by C.setting (event_of (view_at self.old worker) kind) word.found }
        requires quiet { entries C.setting (event_of (view_at self.old worker) kind) word.found ≡ [] }
        ensures step { IsTableStep C.setting worker (event_of (view_at self.old worker) kind) word self.old self.new }
        ensures room { spare_of self.new worker ≡ spare_of self.old worker }
    {
        let _ = self.rows();
        self.change(worker, kind, word, left);
    }

    /// A step with its record, if there is one, in the room that there is.
    #[tactic(auto, using(crate::proofs::Recording::entered_room))]
    pub(crate) fn step_with(
        &mut self,
        worker: usize,
        kind: Kind,
        word: Touched,
        left: u64,
        entry: Option<Record>,
    )
        requires worker { worker < length self.old.views }
        requires can { Can C.setting (view_at self.old worker) (event_of (view_at self.old worker) kind) }
        requires word { IsWordAt self.old (at (event_of (view_at self.old worker) kind)) word }
        requires calm { moves_block (event_of (view_at self.old worker) kind) word.found ≡ false }
        requires left { left ≡ left_by C.setting (event_of (view_at self.old worker) kind) word.found }
        requires room { 0 < spare_of self.old worker }
        requires entry { entries C.setting (event_of (view_at self.old worker) kind) word.found ≡ as_list entry }
        ensures step { IsTableStep C.setting worker (event_of (view_at self.old worker) kind) word self.old self.new }
        ensures room { spare_of self.old worker ≤ spare_of self.new worker + length (as_list entry) }
    {
        let _ = self.rows();
        self.change_with(worker, kind, word, left, entry);
    }

    /// The one place where a block leaves the table.
    pub(crate) fn change_taking(
        &mut self,
        worker: usize,
        block: u32,
        word: Touched,
    ) -> Option<BlockCells>
        requires block { block < self.old.shape.blocks }
        requires word { IsWordAt self.old (turn block) word }
        requires home { slice_index_or self.old.blocks block None ≡ Some (home_at self.old.blocks block) }
        requires sound { IsSound C.setting (taken_by C.setting self.old worker block) }
        ensures taken { result ≡ Some (home_at self.old.blocks block) }
        ensures table { self.new ≡ taken_by C.setting self.old worker block }
    {
        let taken = self.blocks[block as usize].take();
        if let Some(cells) = &taken {
            let views = Ghost::of::<BlockStepping<'_>, Stepped<C>>(&BlockStepping {
                before: &self.views,
                worker,
                kind: BlockKind::TakeTurn,
                block,
                cells,
                found: 0,
            });
            self.words[word.at] = 1;
            self.views = views;
        }
        taken
    }

    // The one place where a block comes back, with what is kept of a record.
    #[tactic(auto, using(crate::proofs::Recording::store_room, crate::proofs::Recording::list_room))]
    fn change_giving(
        &mut self,
        worker: usize,
        kind: BlockKind,
        block: u32,
        word: Touched,
        cells: BlockCells,
        entry: Option<Record>,
    )
        requires block { block < self.old.shape.blocks }
        requires word { IsWordAt self.old (turn block) word }
        requires worker { worker < length self.old.stores }
        requires room { 0 < spare_of self.old worker }
        requires sound { IsSound C.setting (entered (2 ^ 63) worker entry (given_by C.setting self.old worker kind block cells)) }
        ensures table { self.new ≡ entered (2 ^ 63) worker entry (given_by C.setting self.old worker kind block cells) }
        ensures before { IsSound C.setting self.old }
    {
        let views = Ghost::of::<BlockStepping<'_>, Stepped<C>>(&BlockStepping {
            before: &self.views,
            worker,
            kind,
            block,
            cells: &cells,
            found: word.found,
        });
        self.words[word.at] = 0;
        self.views = views;
        self.blocks[block as usize] = Some(cells);
        keep(&mut self.stores[worker], &mut self.root_replaced, entry);
    }

    /// A step that gives a block, with its record, if there is one.
    #[tactic(auto, using(crate::proofs::Recording::entered_room))]
    pub(crate) fn step_giving(
        &mut self,
        worker: usize,
        kind: BlockKind,
        block: u32,
        word: Touched,
        cells: BlockCells,
        entry: Option<Record>,
    )
        requires worker { worker < length self.old.views }
        requires gives { gives kind ≡ true }
        requires can { Can C.setting (view_at self.old worker) (block_event (view_at self.old worker) kind block cells) }
        requires block { block < self.old.shape.blocks }
        requires word { IsWordAt self.old (turn block) word }
        requires room { 0 < spare_of self.old worker }
        requires entry { entries C.setting (block_event (view_at self.old worker) kind block cells) word.found ≡ as_list entry }
        ensures step { IsTableStep C.setting worker (block_event (view_at self.old worker) kind block cells) word self.old self.new }
        ensures room { spare_of self.old worker ≤ spare_of self.new worker + length (as_list entry) }
    {
        let _ = self.rows();
        self.change_giving(worker, kind, block, word, cells, entry);
    }

    /// The one place where a view changes without a word, with what is kept of the record.
    #[tactic(auto, using(crate::proofs::Recording::store_room, crate::proofs::Recording::list_room))]
    pub(crate) fn note_computed(
        &mut self,
        worker: usize,
        key: Key,
        life: u32,
        entry: Option<Record>,
    )
        requires worker { worker < length self.old.stores }
        requires room { 0 < spare_of self.old worker }
        requires sound { IsSound C.setting (entered (2 ^ 63) worker entry (computed_by self.old worker key.0 life)) }
        ensures table { self.new ≡ entered (2 ^ 63) worker entry (computed_by self.old worker key.0 life) }
    {
        self.views = Ghost::of::<Computing<'_>, Stepped<C>>(&Computing {
            before: &self.views,
            worker,
            key: key.0,
            life,
        });
        keep(&mut self.stores[worker], &mut self.root_replaced, entry);
    }

    pub(crate) fn rows(&self) -> u32
        ensures rows { result ≡ C.setting.shape.rows }
        ensures sound { IsSound C.setting self.now }
    {
        self.places.rows
    }

    /// Where the words stand.
    pub(crate) fn places(&self) -> RowWords
        ensures shape { shape_with result (length self.now.blocks) ≡ self.now.shape }
        ensures sound { IsSound C.setting self.now }
    {
        self.places
    }
}
