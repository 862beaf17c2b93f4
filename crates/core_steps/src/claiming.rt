//! Claiming a row for a key, and looking at one.
use crate::kinds::{Kind, Touched};
use crate::plain::PlainTable;
use core_state::Course;
use graph_model::{Key, Record};
use key_table::Claim;

impl<C: Course> PlainTable<C> {
    ghost use Rattle.std.specs.Prelude.{◌≡◌, ◌<◌, length};
    ghost use Rattle.core_state.specs.Guards.{CanClaim};
    ghost use Rattle.core_state.specs.Events.{Event as event};
    ghost use Rattle.key_table.specs.Rules.{ClaimTells, Spends};
    ghost use Rattle.core_steps.specs.Table.{IsTableStep, view_at, spare_of};

    pub(crate) fn claim(&mut self, worker: usize, row: u32, key: Key) -> (Claim, Touched)
        requires worker { worker < length self.old.views }
        requires can { CanClaim C.setting (view_at self.old worker) row key.0 }
        requires room { 0 < spare_of self.old worker }
        ensures tells { ClaimTells result.0 key.0 result.1.found }
        ensures step { IsTableStep C.setting worker (event.claim row key.0) result.1 self.old self.new }
        ensures room { Spends result.0 (spare_of self.old worker) (spare_of self.new worker) }
    {
        let word = self.key_word(row);
        let kind = Kind::Claim { row, key: key.0 };
        if word.found == 0 {
            let entry = Some(Record::Created { key });
            self.step_with(worker, kind, word, key.0 + 1, entry);
            return (Claim::Made, word);
        }
        self.step(worker, kind, word, word.found);
        let found = Key(word.found - 1);
        if found == key {
            (Claim::Found, word)
        } else {
            (Claim::Other { key: found }, word)
        }
    }

    pub(crate) fn look(&mut self, worker: usize, row: u32) -> Touched
        requires worker { worker < length self.old.views }
        requires row { row < C.setting.shape.rows }
        ensures step { IsTableStep C.setting worker (event.look row) result self.old self.new }
        ensures room { spare_of self.new worker ≡ spare_of self.old worker }
    {
        let word = self.key_word(row);
        self.step(worker, Kind::Look { row }, word, word.found);
        word
    }
}
