//! The steps that take a block and give it back, and that the result was made that is to be written.
use crate::kinds::{BlockKind, Kind, Touched};
use crate::plain::PlainTable;
use core_state::{BlockCells, Course};
use graph_model::{Hit, Key, Record};

impl<C: Course> PlainTable<C> {
    ghost use Rattle.std.specs.Prelude.{◌≡◌, ◌≤◌, ◌<◌, ◌+◌, false, IfSome, length, slice_set};
    ghost use Rattle.core_state.specs.Guards.{CanCompute, CanGiveStruck, CanGiveWritten, CanTakeTurn, InHand};
    ghost use Rattle.core_state.specs.Effects.{after_computed};
    ghost use Rattle.core_state.specs.Events.{Event as event};
    ghost use Rattle.core_steps.specs.Seat.{TurnTells, cells_in, hand_of};
    ghost use Rattle.core_steps.specs.Table.{IsSound, IsTableStep, view_at, spare_of};

    pub(crate) fn take_turn(&mut self, worker: usize, block: u32) -> (Option<BlockCells>, Touched)
        requires worker { worker < length self.old.views }
        requires can { CanTakeTurn C.setting (view_at self.old worker) block }
        ensures tells { TurnTells result.0 result.1.found }
        ensures cells { IfSome result.0 (λ x. length x.cells ≡ C.setting.graph.cells block) }
        ensures value { IfSome result.0 (λ x. x.struck ≡ false → 0 < x.tag → x.cells ≡ C.setting.graph.value (C.setting.graph.writer block x.tag)) }
        ensures step { IsTableStep C.setting worker (event.take_turn block (cells_in result.0)) result.1 self.old self.new }
        ensures room { spare_of self.new worker ≡ spare_of self.old worker }
    {
        let word = self.turn_word(block);
        if word.found == 0 {
            return (self.change_taking(worker, block, word), word);
        }
        self.step(worker, Kind::RefuseTurn { block }, word, word.found);
        (None, word)
    }

    pub(crate) fn give_read(&mut self, worker: usize, block: u32, cells: BlockCells) -> Touched
        requires worker { worker < length self.old.views }
        requires can { InHand (view_at self.old worker) block cells }
        requires room { 0 < spare_of self.old worker }
        ensures step { IsTableStep C.setting worker (event.give_read block cells) result self.old self.new }
        ensures room { spare_of self.old worker ≤ spare_of self.new worker }
    {
        let word = self.hand_word(worker, block);
        self.step_giving(worker, BlockKind::GiveRead, block, word, cells, None);
        word
    }

    pub(crate) fn give_written(
        &mut self,
        worker: usize,
        key: Key,
        life: u32,
        block: u32,
        cells: BlockCells,
    ) -> Touched
        requires worker { worker < length self.old.views }
        requires can { CanGiveWritten C.setting (view_at self.old worker) key.0 life block (hand_of (view_at self.old worker) block) cells }
        requires room { 0 < spare_of self.old worker }
        ensures step { IsTableStep C.setting worker (event.give_written key.0 life block (hand_of (view_at self.old worker) block) cells) result self.old self.new }
        ensures room { spare_of self.old worker ≤ spare_of self.new worker + 1 }
    {
        let word = self.hand_word(worker, block);
        let entry = Some(Record::Written {
            key,
            life,
            block,
            version: cells.tag,
        });
        let kind = BlockKind::GiveWritten { key: key.0, life };
        self.step_giving(worker, kind, block, word, cells, entry);
        word
    }

    pub(crate) fn give_struck(
        &mut self,
        worker: usize,
        key: Key,
        life: u32,
        block: u32,
        cells: BlockCells,
    ) -> Touched
        requires worker { worker < length self.old.views }
        requires can { CanGiveStruck C.setting (view_at self.old worker) key.0 life block (hand_of (view_at self.old worker) block) cells }
        requires room { 0 < spare_of self.old worker }
        ensures step { IsTableStep C.setting worker (event.give_struck key.0 life block (hand_of (view_at self.old worker) block) cells) result self.old self.new }
        ensures room { spare_of self.old worker ≤ spare_of self.new worker + 1 }
    {
        let word = self.hand_word(worker, block);
        let version = cells.tag;
        let hit = Hit::Block { block, version };
        let entry = Some(Record::Struck { key, life, hit });
        let struck = BlockKind::GiveStruck { key: key.0, life };
        self.step_giving(worker, struck, block, word, cells, entry);
        word
    }

    pub(crate) fn computed(&mut self, worker: usize, key: Key, life: u32)
        requires worker { worker < length self.old.views }
        requires can { CanCompute C.setting (view_at self.old worker) key.0 life }
        requires room { 0 < spare_of self.old worker }
        ensures views { self.new.views ≡ slice_set self.old.views worker (after_computed key.0 life (view_at self.old worker)) }
        ensures words { self.new.words ≡ self.old.words }
        ensures room { spare_of self.old worker ≤ spare_of self.new worker + 1 }
        ensures sound { IsSound C.setting self.new }
    {
        let _ = self.rows();
        let entry = Some(Record::Computed { key, life });
        self.note_computed(worker, key, life, entry);
    }
}
