//! A worker's seat at the plain table.
ghost use Rattle.std.proofs.Common.{refl};
ghost use Rattle.std.specs.Prelude.{◌≡◌, ◌<◌, [], ◌∷◌, length, slice_set};
ghost use Rattle.core_state.specs.Views.{blank};
ghost use Rattle.core_steps.specs.Seat.{Explores, Awaits, known_of, key_event};
ghost use Rattle.core_state.specs.Events.{Can};
ghost use Rattle.core_steps.specs.Table.{IsSeatStep, WordsAfter, view_at, spare_of};

use crate::plain::PlainTable;
use crate::steps::Steps;
use crate::trace;
use crate::tracing::{key_stepped, stepped};
use core_state::{
    BlockCells, Closing, Course, Descriptor, Elected, Hitting, Job, NotifyWord, Recovery,
    Registered, Told,
};
use ghost_value::Ghost;
use graph_model::{Cause, Key};
use key_table::{Claim, KeyWords, Seen};
use std::alloc::AllocError;

/// The seat of one worker, as long as it borrows the table.
pub struct PlainSeat<'a, C: Course> {
    table: &'a mut PlainTable<C>,
    worker: usize,
    steps: Ghost<trace::Steps>,
    // The table's words as the seat found them, and so they stand until its first step.
    lent: Ghost<trace::Words>,
    ghost inside: { worker < length table.now.views },
    ghost unstepped: { steps.made ≡ 0 → table.now.words ≡ lent },
}

impl<'a, C: Course> Drop for PlainSeat<'a, C> {
    fn drop(self)
        ensures { self.exit.0.now ≡ self.entry.table.now }
    {
        let PlainSeat {
            table: _,
            worker: _,
            steps: _,
            lent: _,
        } = self;
    }
}

impl<C: Course> PlainTable<C> {
    /// The seat of a worker.
    pub fn seat(&mut self, worker: u32) -> PlainSeat<'_, C>
        requires { worker < length self.old.views }
        ensures lender { result.table.ghost_name ≡ self.entry.ghost_name }
        ensures table { result.table.now ≡ self.entry.now }
        ensures worker { result.worker ≡ worker }
        ensures unstepped { result.steps.made ≡ 0 }
        ensures lent { result.lent ≡ self.entry.now.words }
    {
        let lent = self.standing();
        PlainSeat {
            table: self,
            worker: worker as usize,
            steps: Ghost::of::<(), trace::NoStep>(&()),
            lent,
        }
    }
}

impl<'a, C: Course> KeyWords for PlainSeat<'a, C> {
    ghost row_count = { λ s. C.setting.shape.rows };

    ghost keys = { λ s. C.setting.keys };

    ghost may = { λ s key. Explores C.setting (view_at s.table.now s.worker) key };

    ghost stands = { λ s key. Awaits C.setting (view_at s.table.now s.worker) key };

    ghost known = { λ s row. known_of (view_at s.table.now s.worker) row };

    ghost spare = { λ s. spare_of s.table.now s.worker };

    ghost made = { λ s. s.steps.made };

    ghost last = { λ s. s.steps.last };

    ghost did = { λ s row claimed t. Can C.setting (view_at s.table.now s.worker) (key_event row claimed) × IsSeatStep C.setting (key_event row claimed) (record { table = s.table.now; name = s.table.ghost_name; worker = s.worker; steps = s.steps; lent = s.lent }) (record { table = t.table.now; name = t.table.ghost_name; worker = t.worker; steps = t.steps; lent = t.lent }) };

    fn rows(&self) -> u32 {
        self.table.rows()
    }

    fn claim(&mut self, row: u32, key: Key) -> Claim {
        let _ = self.table.rows();
        let (claim, word) = self.table.claim(self.worker, row, key);
        self.steps = key_stepped(&self.steps, row, word);
        claim
    }

    fn look(&mut self, row: u32) -> Seen {
        let word = self.table.look(self.worker, row);
        self.steps = key_stepped(&self.steps, row, word);
        if word.found == 0 {
            Seen::Empty
        } else {
            Seen::Holds {
                key: Key(word.found - 1),
            }
        }
    }
}

impl<'a, C: Course> Steps for PlainSeat<'a, C> {
    ghost setting = { λ s. C.setting };

    ghost view = { λ s. view_at s.table.now s.worker };

    ghost shown = { λ s. s.steps.shown };

    ghost happened = { λ s x n t. WordsAfter C.setting x n s.table.now.words t.table.now.words };

    ghost lender = { λ s. s.table.ghost_name ∷ s.worker ∷ s.lent };

    ghost others = { λ s. slice_set s.table.now.views s.worker blank };

    fn reserve(&mut self, n: u32) -> Result<(), AllocError> {
        self.table.reserve(self.worker, n)
    }

    fn load_descriptor(&mut self, row: u32) -> Descriptor {
        let (told, word) = self.table.load_descriptor(self.worker, row);
        self.steps = stepped(&self.steps, word);
        told
    }

    fn load_notify(&mut self, row: u32, word: u32) -> NotifyWord {
        let (told, touched) = self.table.load_notify(self.worker, row, word);
        self.steps = stepped(&self.steps, touched);
        told
    }

    fn load_recovery(&mut self, row: u32) -> Recovery {
        let (told, word) = self.table.load_recovery(self.worker, row);
        self.steps = stepped(&self.steps, word);
        told
    }

    fn load_pending(&mut self) -> u64 {
        let word = self.table.load_pending(self.worker);
        self.steps = stepped(&self.steps, word);
        word.found
    }

    fn load_stop(&mut self) -> bool {
        let word = self.table.load_stop(self.worker);
        self.steps = stepped(&self.steps, word);
        word.found == 1
    }

    fn post(&mut self, row: u32, job: Job, life: u32) -> u32 {
        let (told, word) = self.table.post(self.worker, row, job, life);
        self.steps = stepped(&self.steps, word);
        told
    }

    fn take(&mut self, row: u32, job: Job) -> u32 {
        let (told, word) = self.table.take(self.worker, row, job);
        self.steps = stepped(&self.steps, word);
        told
    }

    fn register(&mut self, row: u32, port: u32) -> Registered {
        let (told, word) = self.table.register(self.worker, row, port);
        self.steps = stepped(&self.steps, word);
        told
    }

    fn spend(&mut self, row: u32, place: u32, preds: u32) -> Told {
        let (told, word) = self.table.spend(self.worker, row, place, preds);
        self.steps = stepped(&self.steps, word);
        told
    }

    fn close(&mut self, row: u32, life: u32, word: u32, seen: NotifyWord) -> Closing {
        let (told, touched) = self.table.close_word(self.worker, row, life, word, seen);
        self.steps = stepped(&self.steps, touched);
        told
    }

    fn elect(&mut self, row: u32, life: u32, cause: Cause) -> Elected {
        let (told, word) = self.table.elect(self.worker, row, life, cause);
        self.steps = stepped(&self.steps, word);
        told
    }

    fn renew_notify(&mut self, row: u32, word: u32) {
        let touched = self.table.renew_notify(self.worker, row, word);
        self.steps = stepped(&self.steps, touched);
    }

    fn renew_descriptor(&mut self, row: u32) {
        let word = self.table.renew_descriptor(self.worker, row);
        self.steps = stepped(&self.steps, word);
    }

    fn finish(&mut self, row: u32) {
        let word = self.table.finish(self.worker, row);
        self.steps = stepped(&self.steps, word);
    }

    fn strike_descriptor(&mut self, row: u32) -> Hitting {
        let (told, word) = self.table.strike_descriptor(self.worker, row);
        self.steps = stepped(&self.steps, word);
        told
    }

    fn strike_notify(&mut self, row: u32, word: u32) -> Hitting {
        let (told, touched) = self.table.strike_notify(self.worker, row, word);
        self.steps = stepped(&self.steps, touched);
        told
    }

    fn buy(&mut self) {
        let word = self.table.buy(self.worker);
        self.steps = stepped(&self.steps, word);
    }

    fn drop_credit(&mut self) {
        let word = self.table.drop_credit(self.worker);
        self.steps = stepped(&self.steps, word);
    }

    fn take_turn(&mut self, block: u32) -> Option<BlockCells> {
        let (told, word) = self.table.take_turn(self.worker, block);
        self.steps = stepped(&self.steps, word);
        told
    }

    fn give_read(&mut self, block: u32, cells: BlockCells) {
        let word = self.table.give_read(self.worker, block, cells);
        self.steps = stepped(&self.steps, word);
    }

    #[tactic(auto, using(crate::proofs::Seats::set_twice))]
    fn computed(&mut self, key: Key, life: u32) {
        self.table.computed(self.worker, key, life);
    }

    fn give_written(&mut self, key: Key, life: u32, block: u32, cells: BlockCells) {
        let word = self
            .table
            .give_written(self.worker, key, life, block, cells);
        self.steps = stepped(&self.steps, word);
    }

    fn give_struck(&mut self, key: Key, life: u32, block: u32, cells: BlockCells) {
        let word = self.table.give_struck(self.worker, key, life, block, cells);
        self.steps = stepped(&self.steps, word);
    }

    fn stop(&mut self) {
        let word = self.table.stop(self.worker);
        self.steps = stepped(&self.steps, word);
    }

    ghost key_step = { λ s t row claimed did. let step = did.1 in (did.0, record { word = step.word; view_is = step.view_is; one_made = step.one_made; last_is = step.last_is; stepped = step.stepped; found = step.found; table = record { same_setting = step.table.same_setting; same_lender = step.table.same_lender; same_others = step.table.same_others; sure = step.table.sure } }) };

    ghost keys_are = { λ s. refl };

    ghost rows_are = { λ s. refl };

    ghost known_is = { λ s row. refl };

    ghost may_claim = { λ s key explores. explores };

    ghost claims_may = { λ s key explores. explores };

    ghost may_stand = { λ s key awaits. awaits };
}
