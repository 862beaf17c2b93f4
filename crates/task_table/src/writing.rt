//! Steps of a pass that may be recorded: claims, spent places, closed words, elections and strikes.
ghost use Rattle.std.specs.Prelude.{◌≡◌, ◌≤◌, ◌<◌, ◌+◌, ◌-◌, ◌*◌, ◌^◌};
ghost use Rattle.core_state.specs.Counts.{known_key};
ghost use Rattle.core_state.specs.Effects.{closing_of, elected_of, hitting_of, told_of};
ghost use Rattle.core_state.specs.Events.{Event as event};
ghost use Rattle.core_state.specs.Guards.{CanClaim, CanClose, CanElect, CanSpend, CanStrikeDescriptor, CanStrikeNotify};
ghost use Rattle.core_state.specs.Packed.{IsLife, notify_word as number_of};
ghost use Rattle.core_state.specs.Words.{place_of, recovery as recovery_spot};
ghost use Rattle.core_steps.specs.Serving.{work_life, work_waits};
ghost use Rattle.key_table.specs.Rules.{ClaimTells, Spends};
ghost use Rattle.task_table.specs.Passes.{IsPassStep, room_of};

use crate::operations::{exchange, or};
use crate::pass::Pass;
use crate::table::TaskTable;
use core_state::{Closing, Course, Descriptor, Elected, Hitting, NotifyWord, Told};
use core_steps::kinds::{Kind, Touched};
use core_steps::making::{closed_entry, elected_entry, keep, spent_entry, struck_entry};
use graph_model::{Cause, Hit, Key, Record};
use key_table::Claim;

impl<C: Course> Pass<C> {
    pub(crate) fn claim(&mut self, table: &TaskTable<C>, row: u32, key: Key) -> (Claim, Touched)
        requires table { self.old.table ≡ table.now }
        requires can { CanClaim C.setting self.old.view row key.0 }
        requires room { 0 < room_of self.old }
        ensures tells { ClaimTells result.0 key.0 result.1.found }
        ensures step { IsPassStep C.setting (event.claim row key.0) result.1 self.old self.new }
        ensures room { Spends result.0 (room_of self.old) (room_of self.new) }
    {
        let at = table.key_place(row);
        let kind = Kind::Claim { row, key: key.0 };
        let new = self.claimed_number(row, key);
        let found = exchange(table.words(), &mut self.seat, at, 0, new, kind);
        let word = Touched { at, found };
        if found == 0 {
            let entry = Some(Record::Created { key });
            keep(&mut self.store, &mut self.root_replaced, entry);
            return (Claim::Made, word);
        }
        let known = Key(found - 1);
        if known == key {
            (Claim::Found, word)
        } else {
            (Claim::Other { key: known }, word)
        }
    }

    // The number of a key that may be claimed.
    fn claimed_number(&self, row: u32, key: Key) -> u64
        requires can { CanClaim C.setting self.now.view row key.0 }
        ensures { result ≡ key.0 + 1 }
    {
        self.is_pass();
        let _ = row;
        key.0 + 1
    }

    pub(crate) fn spend(
        &mut self,
        table: &TaskTable<C>,
        row: u32,
        place: u32,
        preds: u32,
    ) -> (Told, Touched)
        requires table { self.old.table ≡ table.now }
        requires can { CanSpend C.setting self.old.view row (known_key row self.old.view) place }
        requires preds { preds ≡ C.setting.graph.places (known_key row self.old.view) }
        requires room { 0 < room_of self.old }
        ensures told { result.0 ≡ told_of preds place result.1.found }
        ensures step { IsPassStep C.setting (event.spend row (known_key row self.old.view) place) result.1 self.old self.new }
        ensures room { room_of self.old ≤ room_of self.new + 1 }
    {
        let key = self.key_of(table, row);
        let at = table.descriptor_place(row);
        let bit = self.place_bit(row, place, preds);
        let kind = Kind::Spend { row, place };
        let found = or(table.words(), &mut self.seat, at, bit, kind);
        let told = Told::of_word(found, place, preds);
        keep(
            &mut self.store,
            &mut self.root_replaced,
            spent_entry(key, place, told),
        );
        (told, Touched { at, found })
    }

    // The bit of a place that may be spent.
    fn place_bit(&self, row: u32, place: u32, preds: u32) -> u64
        requires can { CanSpend C.setting self.now.view row (known_key row self.now.view) place }
        requires preds { preds ≡ C.setting.graph.places (known_key row self.now.view) }
        ensures bit { result ≡ 2 ^ place }
        ensures place { place ≤ 40 }
        ensures preds { preds ≤ 40 }
    {
        self.is_pass();
        let _ = (row, preds);
        Descriptor::bit(place)
    }

    pub(crate) fn close_word(
        &mut self,
        table: &TaskTable<C>,
        row: u32,
        life: u32,
        word: u32,
        seen: NotifyWord,
    ) -> (Closing, Touched)
        requires table { self.old.table ≡ table.now }
        requires can { CanClose C.setting self.old.view row (known_key row self.old.view) life word (number_of seen) }
        requires life { seen.life ≡ life }
        requires ports { seen.ports < 2 ^ 40 }
        requires room { 0 < room_of self.old }
        ensures told { result.0 ≡ closing_of life (number_of seen) result.1.found }
        ensures step { IsPassStep C.setting (event.close row (known_key row self.old.view) life word (number_of seen)) result.1 self.old self.new }
        ensures room { room_of self.old ≤ room_of self.new + 1 }
    {
        let key = self.key_of(table, row);
        let at = self.notify_place(table, row, word);
        let seen = self.seen_number(row, life, word, seen);
        let kind = Kind::Close {
            row,
            life,
            word,
            seen,
        };
        let closed = seen | NotifyWord::closing_bit();
        let found = exchange(table.words(), &mut self.seat, at, seen, closed, kind);
        let told = Closing::of_words(life, seen, found);
        keep(
            &mut self.store,
            &mut self.root_replaced,
            closed_entry(key, life, word, told),
        );
        (told, Touched { at, found })
    }

    // The number of a word of a life that is to be closed.
    fn seen_number(&self, row: u32, life: u32, word: u32, seen: NotifyWord) -> u64
        requires can { CanClose C.setting self.now.view row (known_key row self.now.view) life word (number_of seen) }
        requires life { seen.life ≡ life }
        requires ports { seen.ports < 2 ^ 40 }
        ensures { result ≡ number_of seen }
    {
        self.is_pass();
        let _ = (row, life, word);
        seen.word()
    }

    pub(crate) fn elect(
        &mut self,
        table: &TaskTable<C>,
        row: u32,
        life: u32,
        cause: Cause,
    ) -> (Elected, Touched)
        requires table { self.old.table ≡ table.now }
        requires can { CanElect C.setting self.old.view row (known_key row self.old.view) life cause (work_waits self.old.view) }
        requires room { 0 < room_of self.old }
        ensures told { result.0 ≡ elected_of life result.1.found }
        ensures step { IsPassStep C.setting (event.elect row (known_key row self.old.view) life cause (work_waits self.old.view)) result.1 self.old self.new }
        ensures room { room_of self.old ≤ room_of self.new + 1 }
    {
        let key = self.key_of(table, row);
        let at = table.recovery_place(row);
        let stands = self.standing_number(row, life, cause);
        let kind = Kind::Elect { row, life, cause };
        let found = exchange(table.words(), &mut self.seat, at, stands, stands + 1, kind);
        let told = Elected::of_word(life, found);
        keep(
            &mut self.store,
            &mut self.root_replaced,
            elected_entry(key, life, cause, told),
        );
        (told, Touched { at, found })
    }

    // The recovery word of a suspected life that stands.
    fn standing_number(&self, row: u32, life: u32, cause: Cause) -> u64
        requires can { CanElect C.setting self.now.view row (known_key row self.now.view) life cause (work_waits self.now.view) }
        ensures number { result ≡ 2 * (life - 1) }
        ensures few { result < 2 ^ 17 }
        ensures life { IsLife life }
    {
        self.is_pass();
        let _ = (row, cause);
        2 * u64::from(life - 1)
    }

    pub(crate) fn strike_descriptor(&mut self, table: &TaskTable<C>, row: u32) -> (Hitting, Touched)
        requires table { self.old.table ≡ table.now }
        requires can { CanStrikeDescriptor C.setting self.old.view row (known_key row self.old.view) (work_life self.old.view) }
        requires room { 0 < room_of self.old }
        ensures told { result.0 ≡ hitting_of result.1.found }
        ensures step { IsPassStep C.setting (event.strike_descriptor row (known_key row self.old.view) (work_life self.old.view)) result.1 self.old self.new }
        ensures room { room_of self.old ≤ room_of self.new + 1 }
    {
        let key = self.key_of(table, row);
        let at = table.descriptor_place(row);
        let kind = Kind::StrikeDescriptor { row };
        let bits = Descriptor::strike_bits();
        let found = or(table.words(), &mut self.seat, at, bits, kind);
        let told = Hitting::of_word(found);
        keep(
            &mut self.store,
            &mut self.root_replaced,
            struck_entry(key, Hit::Descriptor, told),
        );
        (told, Touched { at, found })
    }

    pub(crate) fn strike_notify(
        &mut self,
        table: &TaskTable<C>,
        row: u32,
        word: u32,
    ) -> (Hitting, Touched)
        requires table { self.old.table ≡ table.now }
        requires can { CanStrikeNotify C.setting self.old.view row (known_key row self.old.view) (work_life self.old.view) word }
        requires room { 0 < room_of self.old }
        ensures told { result.0 ≡ hitting_of result.1.found }
        ensures step { IsPassStep C.setting (event.strike_notify row (known_key row self.old.view) (work_life self.old.view) word) result.1 self.old self.new }
        ensures room { room_of self.old ≤ room_of self.new + 1 }
    {
        let key = self.key_of(table, row);
        let at = self.notify_place(table, row, word);
        let kind = Kind::StrikeNotify { row, word };
        let bits = NotifyWord::strike_bits();
        let found = or(table.words(), &mut self.seat, at, bits, kind);
        let told = Hitting::of_word(found);
        keep(
            &mut self.store,
            &mut self.root_replaced,
            struck_entry(key, Hit::Notify { word }, told),
        );
        (told, Touched { at, found })
    }
}
