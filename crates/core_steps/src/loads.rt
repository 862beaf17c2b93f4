//! The loads of a row's words, of pending and of stop.
use crate::kinds::{Kind, Touched};
use crate::plain::PlainTable;
use core_state::{Course, Descriptor, NotifyWord, Recovery};

impl<C: Course> PlainTable<C> {
    ghost use Rattle.std.specs.Prelude.{◌≡◌, ◌<◌, length};
    ghost use Rattle.core_state.specs.Words.{standing_life};
    ghost use Rattle.core_state.specs.Guards.{CanLoadNotify, KnowsRow};
    ghost use Rattle.core_state.specs.Packed.{descriptor_of, notify_of, recovery_of};
    ghost use Rattle.core_state.specs.Counts.{known_key};
    ghost use Rattle.core_state.specs.Events.{Event as event};
    ghost use Rattle.core_steps.specs.Table.{IsTableStep, view_at, spare_of};

    pub(crate) fn load_descriptor(&mut self, worker: usize, row: u32) -> (Descriptor, Touched)
        requires worker { worker < length self.old.views }
        requires can { KnowsRow C.setting (view_at self.old worker) row (known_key row (view_at self.old worker)) }
        ensures shows { result.0 ≡ descriptor_of result.1.found }
        ensures step { IsTableStep C.setting worker (event.load_descriptor row (known_key row (view_at self.old worker))) result.1 self.old self.new }
        ensures room { spare_of self.new worker ≡ spare_of self.old worker }
    {
        let word = self.descriptor_word(row);
        self.step(worker, Kind::LoadDescriptor { row }, word, word.found);
        (Descriptor::of_word(word.found), word)
    }

    pub(crate) fn load_notify(
        &mut self,
        worker: usize,
        row: u32,
        word: u32,
    ) -> (NotifyWord, Touched)
        requires worker { worker < length self.old.views }
        requires can { CanLoadNotify C.setting (view_at self.old worker) row (known_key row (view_at self.old worker)) word }
        ensures shows { result.0 ≡ notify_of result.1.found }
        ensures step { IsTableStep C.setting worker (event.load_notify row (known_key row (view_at self.old worker)) word) result.1 self.old self.new }
        ensures room { spare_of self.new worker ≡ spare_of self.old worker }
    {
        let touched = self.notify_word(worker, row, word);
        let kind = Kind::LoadNotify { row, word };
        self.step(worker, kind, touched, touched.found);
        (NotifyWord::of_word(touched.found), touched)
    }

    pub(crate) fn load_recovery(&mut self, worker: usize, row: u32) -> (Recovery, Touched)
        requires worker { worker < length self.old.views }
        requires can { KnowsRow C.setting (view_at self.old worker) row (known_key row (view_at self.old worker)) }
        ensures shows { result.0 ≡ recovery_of result.1.found }
        ensures life { result.0.life ≡ standing_life result.1.found }
        ensures step { IsTableStep C.setting worker (event.load_recovery row (known_key row (view_at self.old worker))) result.1 self.old self.new }
        ensures room { spare_of self.new worker ≡ spare_of self.old worker }
    {
        let word = self.recovery_word(row);
        self.step(worker, Kind::LoadRecovery { row }, word, word.found);
        (Recovery::of_word(word.found), word)
    }

    pub(crate) fn load_pending(&mut self, worker: usize) -> Touched
        requires worker { worker < length self.old.views }
        ensures step { IsTableStep C.setting worker event.load_pending result self.old self.new }
        ensures room { spare_of self.new worker ≡ spare_of self.old worker }
    {
        let word = self.pending_word();
        self.step(worker, Kind::LoadPending, word, word.found);
        word
    }

    pub(crate) fn load_stop(&mut self, worker: usize) -> Touched
        requires worker { worker < length self.old.views }
        ensures step { IsTableStep C.setting worker event.load_stop result self.old self.new }
        ensures room { spare_of self.new worker ≡ spare_of self.old worker }
    {
        let word = self.stop_word();
        self.step(worker, Kind::LoadStop, word, word.found);
        word
    }
}
