//! Strikes on the words of a row.
use crate::kinds::{Kind, Touched};
use crate::making::struck_entry;
use crate::plain::PlainTable;
use core_state::{Course, Descriptor, Hitting, NotifyWord};
use graph_model::Hit;

impl<C: Course> PlainTable<C> {
    ghost use Rattle.std.specs.Prelude.{◌≡◌, ◌≤◌, ◌<◌, ◌+◌, length};
    ghost use Rattle.core_state.specs.Guards.{CanStrikeDescriptor, CanStrikeNotify};
    ghost use Rattle.core_state.specs.Counts.{known_key};
    ghost use Rattle.core_state.specs.Effects.{hitting_of};
    ghost use Rattle.core_state.specs.Events.{Event as event};
    ghost use Rattle.core_steps.specs.Serving.{work_life};
    ghost use Rattle.core_steps.specs.Table.{IsTableStep, view_at, spare_of};

    pub(crate) fn strike_descriptor(&mut self, worker: usize, row: u32) -> (Hitting, Touched)
        requires worker { worker < length self.old.views }
        requires can { CanStrikeDescriptor C.setting (view_at self.old worker) row (known_key row (view_at self.old worker)) (work_life (view_at self.old worker)) }
        requires room { 0 < spare_of self.old worker }
        ensures told { result.0 ≡ hitting_of result.1.found }
        ensures step { IsTableStep C.setting worker (event.strike_descriptor row (known_key row (view_at self.old worker)) (work_life (view_at self.old worker))) result.1 self.old self.new }
        ensures room { spare_of self.old worker ≤ spare_of self.new worker + 1 }
    {
        let key = self.known_key(worker, row);
        let word = self.descriptor_word(row);
        let left = word.found | Descriptor::strike_bits();
        let told = Hitting::of_word(word.found);
        let entry = struck_entry(key, Hit::Descriptor, told);
        self.step_with(worker, Kind::StrikeDescriptor { row }, word, left, entry);
        (told, word)
    }

    pub(crate) fn strike_notify(&mut self, worker: usize, row: u32, word: u32) -> (Hitting, Touched)
        requires worker { worker < length self.old.views }
        requires can { CanStrikeNotify C.setting (view_at self.old worker) row (known_key row (view_at self.old worker)) (work_life (view_at self.old worker)) word }
        requires room { 0 < spare_of self.old worker }
        ensures told { result.0 ≡ hitting_of result.1.found }
        ensures step { IsTableStep C.setting worker (event.strike_notify row (known_key row (view_at self.old worker)) (work_life (view_at self.old worker)) word) result.1 self.old self.new }
        ensures room { spare_of self.old worker ≤ spare_of self.new worker + 1 }
    {
        let key = self.known_key(worker, row);
        let touched = self.notify_word(worker, row, word);
        let left = touched.found | NotifyWord::strike_bits();
        let told = Hitting::of_word(touched.found);
        let entry = struck_entry(key, Hit::Notify { word }, told);
        let kind = Kind::StrikeNotify { row, word };
        self.step_with(worker, kind, touched, left, entry);
        (told, touched)
    }
}
