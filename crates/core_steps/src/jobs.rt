//! Posting jobs and taking them, registering and spending, credits, and the end of all work.
use crate::kinds::{Kind, Touched};
use crate::making::spent_entry;
use crate::plain::PlainTable;
use core_state::{Course, Descriptor, Job, NotifyWord, Registered, Told};

impl<C: Course> PlainTable<C> {
    ghost use Rattle.std.specs.Prelude.{◌≡◌, ◌<◌, ◌≤◌, ◌+◌, length};
    ghost use Rattle.core_state.specs.Guards.{CanBuy, CanDropCredit, CanPost, CanRegister, CanSpend, KnowsRow};
    ghost use Rattle.core_state.specs.Counts.{known_key};
    ghost use Rattle.core_state.specs.Effects.{registered_of, told_of};
    ghost use Rattle.core_state.specs.Events.{Event as event};
    ghost use Rattle.core_steps.specs.Table.{IsTableStep, view_at, spare_of};

    pub(crate) fn post(&mut self, worker: usize, row: u32, job: Job, life: u32) -> (u32, Touched)
        requires worker { worker < length self.old.views }
        requires can { CanPost C.setting (view_at self.old worker) row job (known_key row (view_at self.old worker)) life }
        ensures number { result.0 ≡ result.1.found }
        ensures step { IsTableStep C.setting worker (event.post row job (known_key row (view_at self.old worker)) life) result.1 self.old self.new }
        ensures room { spare_of self.new worker ≡ spare_of self.old worker }
    {
        let word = self.job_word(worker, row, job);
        self.step(worker, Kind::Post { row, job, life }, word, life as u64);
        (word.found as u32, word)
    }

    pub(crate) fn take(&mut self, worker: usize, row: u32, job: Job) -> (u32, Touched)
        requires worker { worker < length self.old.views }
        requires can { KnowsRow C.setting (view_at self.old worker) row (known_key row (view_at self.old worker)) }
        ensures number { result.0 ≡ result.1.found }
        ensures step { IsTableStep C.setting worker (event.take row job (known_key row (view_at self.old worker))) result.1 self.old self.new }
        ensures room { spare_of self.new worker ≡ spare_of self.old worker }
    {
        let word = self.job_word(worker, row, job);
        self.step(worker, Kind::Take { row, job }, word, 0);
        (word.found as u32, word)
    }

    pub(crate) fn register(&mut self, worker: usize, row: u32, port: u32) -> (Registered, Touched)
        requires worker { worker < length self.old.views }
        requires can { CanRegister C.setting (view_at self.old worker) row (known_key row (view_at self.old worker)) port }
        ensures told { result.0 ≡ registered_of result.1.found }
        ensures step { IsTableStep C.setting worker (event.register row (known_key row (view_at self.old worker)) port) result.1 self.old self.new }
        ensures room { spare_of self.new worker ≡ spare_of self.old worker }
    {
        let word = self.port_word(worker, row, port);
        let left = word.found | NotifyWord::bit(port);
        self.step(worker, Kind::Register { row, port }, word, left);
        (Registered::of_word(word.found), word)
    }

    pub(crate) fn spend(
        &mut self,
        worker: usize,
        row: u32,
        place: u32,
        preds: u32,
    ) -> (Told, Touched)
        requires worker { worker < length self.old.views }
        requires can { CanSpend C.setting (view_at self.old worker) row (known_key row (view_at self.old worker)) place }
        requires preds { preds ≡ C.setting.graph.places (known_key row (view_at self.old worker)) }
        requires room { 0 < spare_of self.old worker }
        ensures told { result.0 ≡ told_of preds place result.1.found }
        ensures step { IsTableStep C.setting worker (event.spend row (known_key row (view_at self.old worker)) place) result.1 self.old self.new }
        ensures room { spare_of self.old worker ≤ spare_of self.new worker + 1 }
    {
        let key = self.known_key(worker, row);
        let word = self.descriptor_word(row);
        let left = word.found | Descriptor::bit(place);
        let told = Told::of_word(word.found, place, preds);
        let entry = spent_entry(key, place, told);
        self.step_with(worker, Kind::Spend { row, place }, word, left, entry);
        (told, word)
    }

    pub(crate) fn buy(&mut self, worker: usize) -> Touched
        requires worker { worker < length self.old.views }
        requires can { CanBuy C.setting (view_at self.old worker) }
        ensures step { IsTableStep C.setting worker event.buy result self.old self.new }
        ensures room { spare_of self.new worker ≡ spare_of self.old worker }
    {
        let word = self.pending_word();
        self.step(worker, Kind::Buy, word, word.found + 1);
        word
    }

    pub(crate) fn drop_credit(&mut self, worker: usize) -> Touched
        requires worker { worker < length self.old.views }
        requires can { CanDropCredit C.setting (view_at self.old worker) }
        ensures step { IsTableStep C.setting worker event.drop_credit result self.old self.new }
        ensures room { spare_of self.new worker ≡ spare_of self.old worker }
    {
        let word = self.pending_word();
        self.step(worker, Kind::DropCredit, word, word.found - 1);
        word
    }

    pub(crate) fn stop(&mut self, worker: usize) -> Touched
        requires worker { worker < length self.old.views }
        ensures step { IsTableStep C.setting worker event.halt result self.old self.new }
        ensures room { spare_of self.new worker ≡ spare_of self.old worker }
    {
        let word = self.stop_word();
        self.step(worker, Kind::Stop, word, 1);
        word
    }
}
