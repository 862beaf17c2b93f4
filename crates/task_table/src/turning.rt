//! Steps of a pass that take a block and give it back, and that a result was made.
ghost use Rattle.std.specs.Prelude.{◌≡◌, ℕ, ◌≤◌, ◌<◌, ◌+◌, IfSome, false, length, true};
ghost use Rattle.core_state.specs.Counts.{in_hand};
ghost use Rattle.core_state.specs.Effects.{after_computed};
ghost use Rattle.core_state.specs.Events.{Can, Event as event};
ghost use Rattle.core_state.specs.Guards.{CanCompute, CanTakeTurn};
ghost use Rattle.core_state.specs.Outcome.{entries};
ghost use Rattle.core_steps.specs.Kinds.{block_event, gives};
ghost use Rattle.core_steps.specs.Seat.{TurnTells, cells_in};
ghost use Rattle.core_steps.specs.Table.{as_list};
ghost use Rattle.task_table.specs.Passes.{IsPass, IsPassStep, room_of};

use crate::operations;
use crate::pass::Pass;
use crate::table::TaskTable;
use core_state::{BlockCells, Course};
use core_steps::kinds::{BlockKind, Touched};
use core_steps::making::keep;
use graph_model::{Key, Record};

impl<C: Course> Pass<C> {
    pub(crate) fn take_turn(
        &mut self,
        table: &TaskTable<C>,
        block: u32,
    ) -> (Option<BlockCells>, Touched)
        requires table { self.old.table ≡ table.now }
        requires can { CanTakeTurn C.setting self.old.view block }
        ensures tells { TurnTells result.0 result.1.found }
        ensures cells { IfSome result.0 (λ x. length x.cells ≡ C.setting.graph.cells block) }
        ensures value { IfSome result.0 (λ x. x.struck ≡ false → 0 < x.tag → x.cells ≡ C.setting.graph.value (C.setting.graph.writer block x.tag)) }
        ensures step { IsPassStep C.setting (event.take_turn block (cells_in result.0)) result.1 self.old self.new }
        ensures room { room_of self.new ≡ room_of self.old }
    {
        let at = table.turn_place(block);
        let found = operations::take(table.words(), &mut self.seat, at, block);
        let word = Touched { at, found };
        if found != 0 {
            return (None, word);
        }
        let cells = table.words().exchange(&mut self.seat, block as usize, None);
        (cells, word)
    }

    /// Gives the block in hand back, with its record, if there is one.
    pub(crate) fn give(
        &mut self,
        table: &TaskTable<C>,
        kind: BlockKind,
        block: u32,
        cells: BlockCells,
        entry: Option<Record>,
    ) -> Touched
        requires table { self.old.table ≡ table.now }
        requires gives { gives kind ≡ true }
        requires can { Can C.setting self.old.view (block_event self.old.view kind block cells) }
        requires room { 0 < room_of self.old }
        requires entry { (n : ℕ) → entries C.setting (block_event self.old.view kind block cells) n ≡ as_list entry }
        ensures step { IsPassStep C.setting (block_event self.old.view kind block cells) result self.old self.new }
        ensures room { room_of self.old ≤ room_of self.new + 1 }
    {
        let at = table.turn_place(block);
        drop(
            table
                .words()
                .exchange(&mut self.seat, block as usize, Some(cells)),
        );
        let found = operations::give(table.words(), &mut self.seat, at, kind, block);
        keep(&mut self.store, &mut self.root_replaced, entry);
        Touched { at, found }
    }

    pub(crate) fn computed(&mut self, table: &TaskTable<C>, key: Key, life: u32)
        requires table { self.old.table ≡ table.now }
        requires can { CanCompute C.setting self.old.view key.0 life }
        requires room { 0 < room_of self.old }
        ensures view { self.new.view ≡ after_computed key.0 life self.old.view }
        ensures same { (self.new.table ≡ self.old.table) × (self.new.seat ≡ self.old.seat) }
        ensures room { room_of self.old ≤ room_of self.new + 1 }
        ensures pass { IsPass C.setting self.new }
    {
        operations::make(table.words(), &mut self.seat, key.0, life);
        let entry = Some(Record::Computed { key, life });
        keep(&mut self.store, &mut self.root_replaced, entry);
    }
}
