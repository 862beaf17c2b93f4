//! Electing a worker to replace a life.
use crate::kinds::{Kind, Touched};
use crate::making::{elected_entry, elected_number};
use crate::plain::PlainTable;
use core_state::{Course, Elected};
use graph_model::Cause;

impl<C: Course> PlainTable<C> {
    ghost use Rattle.std.specs.Prelude.{◌≡◌, ◌≤◌, ◌<◌, ◌+◌, ◌^◌, length};
    ghost use Rattle.core_state.specs.Words.{recovery};
    ghost use Rattle.core_state.specs.Guards.{CanElect};
    ghost use Rattle.core_state.specs.Counts.{known_key};
    ghost use Rattle.core_state.specs.Effects.{elected_of};
    ghost use Rattle.core_state.specs.Events.{Event as event};
    ghost use Rattle.core_state.specs.Packed.{IsLife};
    ghost use Rattle.core_steps.specs.Serving.{work_waits};
    ghost use Rattle.core_steps.specs.Table.{IsSound, IsTableStep, IsWordAt, view_at, spare_of};

    pub(crate) fn elect(
        &mut self,
        worker: usize,
        row: u32,
        life: u32,
        cause: Cause,
    ) -> (Elected, Touched)
        requires worker { worker < length self.old.views }
        requires can { CanElect C.setting (view_at self.old worker) row (known_key row (view_at self.old worker)) life cause (work_waits (view_at self.old worker)) }
        requires room { 0 < spare_of self.old worker }
        ensures told { result.0 ≡ elected_of life result.1.found }
        ensures step { IsTableStep C.setting worker (event.elect row (known_key row (view_at self.old worker)) life cause (work_waits (view_at self.old worker))) result.1 self.old self.new }
        ensures room { spare_of self.old worker ≤ spare_of self.new worker + 1 }
    {
        let key = self.known_key(worker, row);
        let word = self.suspected_word(worker, row, life, cause);
        let told = Elected::of_word(life, word.found);
        let left = elected_number(life, word.found);
        let entry = elected_entry(key, life, cause, told);
        let kind = Kind::Elect { row, life, cause };
        self.step_with(worker, kind, word, left, entry);
        (told, word)
    }

    // The recovery word of a life that the worker suspects.
    fn suspected_word(&self, worker: usize, row: u32, life: u32, cause: Cause) -> Touched
        requires worker { worker < length self.now.views }
        requires can { CanElect C.setting (view_at self.now worker) row (known_key row (view_at self.now worker)) life cause (work_waits (view_at self.now worker)) }
        ensures word { IsWordAt self.now (recovery row) result }
        ensures few { result.found < 2 ^ 17 }
        ensures life { IsLife life }
        ensures sound { IsSound C.setting self.now }
    {
        let _ = (worker, life, cause);
        self.recovery_word(row)
    }
}
