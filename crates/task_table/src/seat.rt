//! A pass that sits at its table.
ghost use Rattle.std.proofs.Common.{refl};
ghost use Rattle.std.specs.Prelude.{◌≡◌, []};
ghost use Rattle.core_state.specs.Events.{Can};
ghost use Rattle.core_steps.specs.Seat.{Explores, Awaits, known_of, key_event};
ghost use Rattle.task_table.specs.Moments.{Moment, StopSeen};
ghost use Rattle.task_table.specs.Passes.{IsSharedStep, lender_of, room_of};

use crate::pass::Pass;
use crate::table::TaskTable;
use core_state::{
    BlockCells, Closing, Course, Descriptor, Elected, Hitting, Job, NotifyWord, Recovery,
    Registered, Told,
};
use core_steps::kinds::{BlockKind, Kind};
use core_steps::tracing::{key_stepped, stepped};
use core_steps::{Steps, trace};
use ghost_value::Ghost;
use graph_model::{Cause, Hit, Key, Record};
use key_table::{Claim, KeyWords, Seen};
use std::alloc::AllocError;

/// The seat of a pass, as long as it borrows the table, which others borrow at the same time.
#[derive(Drop)]
pub struct TableSeat<'a, C: Course> {
    table: &'a TaskTable<C>,
    pass: Pass<C>,
    steps: Ghost<trace::Steps>,
    ghost of: { pass.table ≡ table.now },
}

impl<C: Course> TaskTable<C> {
    /// The seat of a pass of this table.
    pub fn seat(&self, pass: Pass<C>) -> TableSeat<'_, C>
        requires { pass.table ≡ self.now }
        ensures { result.pass ≡ pass }
    {
        TableSeat {
            table: self,
            pass,
            steps: Ghost::of::<(), trace::NoStep>(&()),
        }
    }
}

impl<'a, C: Course> TableSeat<'a, C> {
    /// Whether the table was stopped, by a load that is no step and of which the seat learns nothing.
    pub fn sees_stop(&mut self) -> bool
        ensures seen { StopSeen C.setting self.old.pass.view result }
        ensures same { (self.new.pass ≡ self.old.pass) × (self.new.steps ≡ self.old.steps) }
    {
        self.pass.sees_stop(self.table)
    }

    /// The pass, with all that the seat knows and holds.
    pub fn leave(self) -> Pass<C>
        ensures { result ≡ self.entry.pass }
    {
        let TableSeat {
            table: _,
            pass,
            steps: _,
        } = self;
        pass
    }
}

impl<'a, C: Course> KeyWords for TableSeat<'a, C> {
    ghost row_count = { λ s. C.setting.shape.rows };

    ghost keys = { λ s. C.setting.keys };

    ghost may = { λ s key. Explores C.setting s.pass.view key };

    ghost stands = { λ s key. Awaits C.setting s.pass.view key };

    ghost known = { λ s row. known_of s.pass.view row };

    ghost spare = { λ s. room_of s.pass };

    ghost made = { λ s. s.steps.made };

    ghost last = { λ s. s.steps.last };

    ghost did = { λ s row claimed t. Can C.setting s.pass.view (key_event row claimed) × IsSharedStep C.setting (key_event row claimed) (record { pass = s.pass; steps = s.steps }) (record { pass = t.pass; steps = t.steps }) };

    fn rows(&self) -> u32 {
        self.pass.is_pass();
        self.table.rows()
    }

    fn claim(&mut self, row: u32, key: Key) -> Claim {
        let (claim, word) = self.pass.claim(self.table, row, key);
        self.steps = key_stepped(&self.steps, row, word);
        claim
    }

    fn look(&mut self, row: u32) -> Seen {
        let at = self.table.key_place(row);
        let word = self.pass.load(self.table, at, Kind::Look { row });
        self.steps = key_stepped(&self.steps, row, word);
        if word.found == 0 {
            Seen::Empty
        } else {
            Seen::Holds {
                key: Key(word.found - 1),
            }
        }
    }
}

impl<'a, C: Course> Steps for TableSeat<'a, C> {
    ghost setting = { λ s. C.setting };

    ghost view = { λ s. s.pass.view };

    ghost shown = { λ s. s.steps.shown };

    ghost happened = { λ s x n t. Moment C.setting x n s.pass.view t.pass.view };

    ghost lender = { λ s. lender_of s.pass };

    ghost others = { λ s. [] };

    fn reserve(&mut self, n: u32) -> Result<(), AllocError> {
        self.pass.reserve(n)
    }

    fn load_descriptor(&mut self, row: u32) -> Descriptor {
        let at = self.table.descriptor_place(row);
        let kind = Kind::LoadDescriptor { row };
        let word = self.pass.load(self.table, at, kind);
        self.steps = stepped(&self.steps, word);
        Descriptor::of_word(word.found)
    }

    fn load_notify(&mut self, row: u32, word: u32) -> NotifyWord {
        let at = self.pass.notify_place(self.table, row, word);
        let kind = Kind::LoadNotify { row, word };
        let touched = self.pass.load(self.table, at, kind);
        self.steps = stepped(&self.steps, touched);
        NotifyWord::of_word(touched.found)
    }

    fn load_recovery(&mut self, row: u32) -> Recovery {
        let at = self.table.recovery_place(row);
        let kind = Kind::LoadRecovery { row };
        let word = self.pass.load(self.table, at, kind);
        self.steps = stepped(&self.steps, word);
        Recovery::of_word(word.found)
    }

    fn load_pending(&mut self) -> u64 {
        let word = self.pass.load(self.table, 0, Kind::LoadPending);
        self.steps = stepped(&self.steps, word);
        word.found
    }

    fn load_stop(&mut self) -> bool {
        let word = self.pass.load(self.table, 1, Kind::LoadStop);
        self.steps = stepped(&self.steps, word);
        word.found == 1
    }

    fn post(&mut self, row: u32, job: Job, life: u32) -> u32 {
        let at = self.table.job_place(row, job);
        let kind = Kind::Post { row, job, life };
        let word = self.pass.swap(self.table, at, u64::from(life), kind);
        self.steps = stepped(&self.steps, word);
        word.found as u32
    }

    fn take(&mut self, row: u32, job: Job) -> u32 {
        let at = self.table.job_place(row, job);
        let word = self.pass.swap(self.table, at, 0, Kind::Take { row, job });
        self.steps = stepped(&self.steps, word);
        word.found as u32
    }

    fn register(&mut self, row: u32, port: u32) -> Registered {
        let at = self.pass.port_place(self.table, row, port);
        let kind = Kind::Register { row, port };
        let word = self.pass.or(self.table, at, NotifyWord::bit(port), kind);
        self.steps = stepped(&self.steps, word);
        Registered::of_word(word.found)
    }

    fn spend(&mut self, row: u32, place: u32, preds: u32) -> Told {
        let (told, word) = self.pass.spend(self.table, row, place, preds);
        self.steps = stepped(&self.steps, word);
        told
    }

    fn close(&mut self, row: u32, life: u32, word: u32, seen: NotifyWord) -> Closing {
        let (told, touched) = self.pass.close_word(self.table, row, life, word, seen);
        self.steps = stepped(&self.steps, touched);
        told
    }

    fn elect(&mut self, row: u32, life: u32, cause: Cause) -> Elected {
        let (told, word) = self.pass.elect(self.table, row, life, cause);
        self.steps = stepped(&self.steps, word);
        told
    }

    fn renew_notify(&mut self, row: u32, word: u32) {
        let touched = self.pass.renew_notify(self.table, row, word);
        self.steps = stepped(&self.steps, touched);
    }

    fn renew_descriptor(&mut self, row: u32) {
        let word = self.pass.renew_descriptor(self.table, row);
        self.steps = stepped(&self.steps, word);
    }

    fn finish(&mut self, row: u32) {
        let word = self.pass.finish(self.table, row);
        self.steps = stepped(&self.steps, word);
    }

    fn strike_descriptor(&mut self, row: u32) -> Hitting {
        let (told, word) = self.pass.strike_descriptor(self.table, row);
        self.steps = stepped(&self.steps, word);
        told
    }

    fn strike_notify(&mut self, row: u32, word: u32) -> Hitting {
        let (told, touched) = self.pass.strike_notify(self.table, row, word);
        self.steps = stepped(&self.steps, touched);
        told
    }

    fn buy(&mut self) {
        let word = self.pass.buy(self.table);
        self.steps = stepped(&self.steps, word);
    }

    fn drop_credit(&mut self) {
        let word = self.pass.drop_credit(self.table);
        self.steps = stepped(&self.steps, word);
    }

    fn take_turn(&mut self, block: u32) -> Option<BlockCells> {
        let (told, word) = self.pass.take_turn(self.table, block);
        self.steps = stepped(&self.steps, word);
        told
    }

    fn give_read(&mut self, block: u32, cells: BlockCells) {
        let word = self
            .pass
            .give(self.table, BlockKind::GiveRead, block, cells, None);
        self.steps = stepped(&self.steps, word);
    }

    fn computed(&mut self, key: Key, life: u32) {
        self.pass.computed(self.table, key, life);
    }

    fn give_written(&mut self, key: Key, life: u32, block: u32, cells: BlockCells) {
        let entry = Some(Record::Written {
            key,
            life,
            block,
            version: cells.tag,
        });
        let kind = BlockKind::GiveWritten { key: key.0, life };
        let word = self.pass.give(self.table, kind, block, cells, entry);
        self.steps = stepped(&self.steps, word);
    }

    fn give_struck(&mut self, key: Key, life: u32, block: u32, cells: BlockCells) {
        let version = cells.tag;
        let hit = Hit::Block { block, version };
        let entry = Some(Record::Struck { key, life, hit });
        let kind = BlockKind::GiveStruck { key: key.0, life };
        let word = self.pass.give(self.table, kind, block, cells, entry);
        self.steps = stepped(&self.steps, word);
    }

    fn stop(&mut self) {
        let word = self.pass.swap(self.table, 1, 1, Kind::Stop);
        self.steps = stepped(&self.steps, word);
    }

    ghost key_step = { λ s t row claimed did. let step = did.1 in (did.0, record { word = step.word; view_is = step.view_is; one_made = step.one_made; last_is = step.last_is; stepped = step.stepped; found = step.found; table = record { same_setting = step.table.same_setting; same_lender = step.table.same_lender; same_others = step.table.same_others; sure = step.table.sure } }) };

    ghost keys_are = { λ s. refl };

    ghost rows_are = { λ s. refl };

    ghost known_is = { λ s row. refl };

    ghost may_claim = { λ s key explores. explores };

    ghost claims_may = { λ s key explores. explores };

    ghost may_stand = { λ s key awaits. awaits };
}
