//! Replacing a life: its words are renewed, and then the next life stands.
use crate::kinds::{Kind, Touched};
use crate::plain::PlainTable;
use core_state::{Course, Descriptor, NotifyWord, Recovery};

impl<C: Course> PlainTable<C> {
    ghost use Rattle.std.specs.Prelude.{◌≡◌, ◌≤◌, ◌<◌, ◌+◌, length};
    ghost use Rattle.core_state.specs.Guards.{CanFinish, CanRenewDescriptor, CanRenewNotify};
    ghost use Rattle.core_state.specs.Counts.{known_key};
    ghost use Rattle.core_state.specs.Events.{Event as event};
    ghost use Rattle.core_steps.specs.Serving.{Renews, work_life};
    ghost use Rattle.core_steps.specs.Table.{IsSound, IsTableStep, view_at, spare_of};

    pub(crate) fn renew_notify(&mut self, worker: usize, row: u32, word: u32) -> Touched
        requires worker { worker < length self.old.views }
        requires can { CanRenewNotify C.setting (view_at self.old worker) row (known_key row (view_at self.old worker)) (work_life (view_at self.old worker)) word }
        ensures step { IsTableStep C.setting worker (event.renew_notify row (known_key row (view_at self.old worker)) (work_life (view_at self.old worker)) word) result self.old self.new }
        ensures room { spare_of self.new worker ≡ spare_of self.old worker }
    {
        let touched = self.notify_word(worker, row, word);
        let left = NotifyWord::empty(self.next_life(worker, row)).word();
        self.step(worker, Kind::RenewNotify { row, word }, touched, left);
        touched
    }

    pub(crate) fn renew_descriptor(&mut self, worker: usize, row: u32) -> Touched
        requires worker { worker < length self.old.views }
        requires can { CanRenewDescriptor C.setting (view_at self.old worker) row (known_key row (view_at self.old worker)) (work_life (view_at self.old worker)) }
        ensures step { IsTableStep C.setting worker (event.renew_descriptor row (known_key row (view_at self.old worker)) (work_life (view_at self.old worker))) result self.old self.new }
        ensures room { spare_of self.new worker ≡ spare_of self.old worker }
    {
        let word = self.descriptor_word(row);
        let next = Descriptor {
            life: self.next_life(worker, row),
            struck: false,
            spent: 0,
        };
        self.step(worker, Kind::RenewDescriptor { row }, word, next.word());
        word
    }

    pub(crate) fn finish(&mut self, worker: usize, row: u32) -> Touched
        requires worker { worker < length self.old.views }
        requires can { CanFinish C.setting (view_at self.old worker) row (known_key row (view_at self.old worker)) (work_life (view_at self.old worker)) }
        ensures step { IsTableStep C.setting worker (event.finish row (known_key row (view_at self.old worker)) (work_life (view_at self.old worker))) result self.old self.new }
        ensures room { spare_of self.new worker ≡ spare_of self.old worker }
    {
        let word = self.recovery_word(row);
        let next = Recovery {
            life: self.next_life(worker, row),
            renewing: false,
        };
        self.step(worker, Kind::Finish { row }, word, next.word());
        word
    }

    // The life after the one that the worker replaces, of which the recovery word tells.
    fn next_life(&self, worker: usize, row: u32) -> u32
        requires worker { worker < length self.now.views }
        requires renews { Renews C.setting (view_at self.now worker) row (known_key row (view_at self.now worker)) (work_life (view_at self.now worker)) }
        ensures life { result ≡ work_life (view_at self.now worker) + 1 }
        ensures few { result ≤ 65535 }
        ensures sound { IsSound C.setting self.now }
    {
        let _ = worker;
        Recovery::of_word(self.recovery_word(row).found).life + 1
    }
}
