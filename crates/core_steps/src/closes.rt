//! Closing a notify word.
use crate::kinds::{Kind, Touched};
use crate::making::{closed_entry, closed_number};
use crate::plain::PlainTable;
use core_state::{Closing, Course, NotifyWord};

impl<C: Course> PlainTable<C> {
    ghost use Rattle.std.specs.Prelude.{◌≡◌, ◌≤◌, ◌<◌, ◌+◌, ◌^◌, length};
    ghost use Rattle.core_state.specs.Guards.{CanClose};
    ghost use Rattle.core_state.specs.Counts.{known_key};
    ghost use Rattle.core_state.specs.Effects.{closing_of};
    ghost use Rattle.core_state.specs.Events.{Event as event};
    ghost use Rattle.core_state.specs.Packed.{notify_word as number_of};
    ghost use Rattle.core_steps.specs.Table.{IsTableStep, view_at, spare_of};

    pub(crate) fn close_word(
        &mut self,
        worker: usize,
        row: u32,
        life: u32,
        word: u32,
        seen: NotifyWord,
    ) -> (Closing, Touched)
        requires worker { worker < length self.old.views }
        requires can { CanClose C.setting (view_at self.old worker) row (known_key row (view_at self.old worker)) life word (number_of seen) }
        requires life { seen.life ≡ life }
        requires ports { seen.ports < 2 ^ 40 }
        requires room { 0 < spare_of self.old worker }
        ensures told { result.0 ≡ closing_of life (number_of seen) result.1.found }
        ensures step { IsTableStep C.setting worker (event.close row (known_key row (view_at self.old worker)) life word (number_of seen)) result.1 self.old self.new }
        ensures room { spare_of self.old worker ≤ spare_of self.new worker + 1 }
    {
        let key = self.known_key(worker, row);
        let touched = self.notify_word(worker, row, word);
        let seen = self.seen_number(worker, row, life, word, seen);
        let left = closed_number(seen, touched.found);
        let told = Closing::of_words(life, seen, touched.found);
        let entry = closed_entry(key, life, word, told);
        let kind = Kind::Close {
            row,
            life,
            word,
            seen,
        };
        self.step_with(worker, kind, touched, left, entry);
        (told, touched)
    }

    // The number of a word of a life that is to be closed.
    fn seen_number(&self, worker: usize, row: u32, life: u32, word: u32, seen: NotifyWord) -> u64
        requires worker { worker < length self.now.views }
        requires can { CanClose C.setting (view_at self.now worker) row (known_key row (view_at self.now worker)) life word (number_of seen) }
        requires life { seen.life ≡ life }
        requires ports { seen.ports < 2 ^ 40 }
        ensures { result ≡ number_of seen }
    {
        let _ = (worker, row, life, word, self.rows());
        seen.word()
    }
}
