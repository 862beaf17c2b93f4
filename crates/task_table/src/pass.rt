//! What one worker owns of a table: a seat, and the records that it keeps.
ghost use Rattle.std.specs.Prelude.{◌≡◌, ℕ, ◌≤◌, ◌<◌, ◌+◌, ◌-◌, ◌%◌, ◌^◌, ◌/◌, [], bit_or, false, OnOk, length};
ghost use Rattle.core_state.specs.Counts.{known_key};
ghost use Rattle.core_state.specs.Events.{Can, at, left as left_by};
ghost use Rattle.core_state.specs.Guards.{CanRegister, KnowsRow};
ghost use Rattle.core_state.specs.Outcome.{entries};
ghost use Rattle.core_state.specs.Words.{place_of, notify as notify_spot};
ghost use Rattle.core_steps.specs.Kinds.{event_of, moves_block};
ghost use Rattle.core_steps.specs.Serving.{Renews, work_life};
ghost use Rattle.task_table.specs.Moments.{Glance, StopSeen};
ghost use Rattle.task_table.specs.Passes.{IsPass, IsPassStep, room_of};

use crate::operations::{self, glance};
use crate::rule::Token;
use crate::table::TaskTable;
use core_state::{Course, PORTS_PER_WORD, Recovery};
use core_steps::kinds::{Kind, Touched};
use core_steps::store::Store;
use graph_model::Record;
use std::alloc::AllocError;
use std::marker::{Model, PhantomData};

/// A share of a table: the seat of one worker, its spare credits, its duties and its records. It has no part
/// of the table itself, so it may be kept apart from it.
#[derive(Drop)]
pub struct Pass<C: Course> {
    pub(crate) seat: Token,
    pub(crate) store: Store,
    pub(crate) root_replaced: Vec<Record>,
    pub(crate) course: PhantomData<C>,
}

impl<C: Course> Model for Pass<C> {
    ghost use Rattle.std.specs.Prelude.{◌≡◌, ◌-◌, vec_len, vec_capacity};
    ghost use Rattle.task_table.specs.Moments.{emptied};
    ghost use Rattle.task_table.specs.Passes.{Passing, IsPass};

    ghost Value = { Passing };

    ghost view = { λ p. record { table = p.seat.table_id; seat = p.seat.id; view = p.seat.me.0; store = p.store; root_replaced = p.root_replaced.items; replaced_room = vec_capacity p.root_replaced - vec_len p.root_replaced } };

    ghost invariant = { λ p. (p.seat.me.1 ≡ emptied p.seat.me.0.hands) × IsPass C.setting (record { table = p.seat.table_id; seat = p.seat.id; view = p.seat.me.0; store = p.store; root_replaced = p.root_replaced.items; replaced_room = vec_capacity p.root_replaced - vec_len p.root_replaced }) };
}

impl<C: Course> Pass<C> {
    /// Makes room for so many records.
    #[tactic(auto, using(core_steps::proofs::Recording::min_grows, core_steps::proofs::Recording::min_least))]
    pub(crate) fn reserve(&mut self, n: u32) -> Result<(), AllocError>
        ensures room { OnOk result (n ≤ room_of self.new) }
        ensures more { room_of self.old ≤ room_of self.new }
        ensures same { (self.new.view ≡ self.old.view) × (self.new.table ≡ self.old.table) × (self.new.seat ≡ self.old.seat) }
        ensures pass { IsPass C.setting self.new }
    {
        self.root_replaced.reserve(n as usize)?;
        self.store.reserve(n as usize)
    }

    /// Makes room for the records of another.
    pub(crate) fn reserve_for(&mut self, other: &Pass<C>) -> Result<(), AllocError>
        ensures store { OnOk result (length other.now.store.records ≤ self.new.store.room) }
        ensures list { OnOk result (length other.now.root_replaced ≤ self.new.replaced_room) }
        ensures same { (self.new.view ≡ self.old.view) × (self.new.table ≡ self.old.table) × (self.new.seat ≡ self.old.seat) }
        ensures records { (self.new.store.records ≡ self.old.store.records) × (self.new.root_replaced ≡ self.old.root_replaced) }
    {
        self.root_replaced.reserve(other.root_replaced.len())?;
        self.store.reserve(other.store.as_slice().len())
    }

    /// Tells what holds of a pass at all times, and does nothing.
    pub fn is_pass(&self)
        ensures { IsPass C.setting self.now }
    {
        let _ = &self.store;
    }

    /// A load that is a step of which nothing is recorded.
    pub(crate) fn load(&mut self, table: &TaskTable<C>, word: usize, kind: Kind) -> Touched
        requires table { self.old.table ≡ table.now }
        requires can { Can C.setting self.old.view (event_of self.old.view kind) }
        requires word { word ≡ place_of C.setting.shape (at (event_of self.old.view kind)) }
        requires calm { (n : ℕ) → moves_block (event_of self.old.view kind) n ≡ false }
        requires quiet { (n : ℕ) → entries C.setting (event_of self.old.view kind) n ≡ [] }
        requires leaves { (n : ℕ) → left_by C.setting (event_of self.old.view kind) n ≡ n }
        ensures step { IsPassStep C.setting (event_of self.old.view kind) result self.old self.new }
        ensures room { room_of self.new ≡ room_of self.old }
    {
        let found = operations::load(table.words(), &mut self.seat, word, kind);
        Touched { at: word, found }
    }

    /// A swap of which nothing is recorded.
    pub(crate) fn swap(
        &mut self,
        table: &TaskTable<C>,
        word: usize,
        new: u64,
        kind: Kind,
    ) -> Touched
        requires table { self.old.table ≡ table.now }
        requires can { Can C.setting self.old.view (event_of self.old.view kind) }
        requires word { word ≡ place_of C.setting.shape (at (event_of self.old.view kind)) }
        requires calm { (n : ℕ) → moves_block (event_of self.old.view kind) n ≡ false }
        requires quiet { (n : ℕ) → entries C.setting (event_of self.old.view kind) n ≡ [] }
        requires leaves { (n : ℕ) → left_by C.setting (event_of self.old.view kind) n ≡ new }
        ensures step { IsPassStep C.setting (event_of self.old.view kind) result self.old self.new }
        ensures room { room_of self.new ≡ room_of self.old }
    {
        let found = operations::swap(table.words(), &mut self.seat, word, new, kind);
        Touched { at: word, found }
    }

    /// Bits that are set, of which nothing is recorded.
    pub(crate) fn or(&mut self, table: &TaskTable<C>, word: usize, bits: u64, kind: Kind) -> Touched
        requires table { self.old.table ≡ table.now }
        requires can { Can C.setting self.old.view (event_of self.old.view kind) }
        requires word { word ≡ place_of C.setting.shape (at (event_of self.old.view kind)) }
        requires calm { (n : ℕ) → moves_block (event_of self.old.view kind) n ≡ false }
        requires quiet { (n : ℕ) → entries C.setting (event_of self.old.view kind) n ≡ [] }
        requires leaves { (n : ℕ) → left_by C.setting (event_of self.old.view kind) n ≡ bit_or n bits }
        ensures step { IsPassStep C.setting (event_of self.old.view kind) result self.old self.new }
        ensures room { room_of self.new ≡ room_of self.old }
    {
        let found = operations::or(table.words(), &mut self.seat, word, bits, kind);
        Touched { at: word, found }
    }

    /// Buys a credit.
    pub(crate) fn buy(&mut self, table: &TaskTable<C>) -> Touched
        requires table { self.old.table ≡ table.now }
        requires can { Can C.setting self.old.view Rattle.core_state.specs.Events.Event.buy }
        ensures step { IsPassStep C.setting Rattle.core_state.specs.Events.Event.buy result self.old self.new }
        ensures room { room_of self.new ≡ room_of self.old }
    {
        let found = operations::add(table.words(), &mut self.seat, 0, 1, Kind::Buy);
        Touched { at: 0, found }
    }

    /// Drops a credit.
    pub(crate) fn drop_credit(&mut self, table: &TaskTable<C>) -> Touched
        requires table { self.old.table ≡ table.now }
        requires can { Can C.setting self.old.view Rattle.core_state.specs.Events.Event.drop_credit }
        ensures step { IsPassStep C.setting Rattle.core_state.specs.Events.Event.drop_credit result self.old self.new }
        ensures room { room_of self.new ≡ room_of self.old }
    {
        let found = operations::sub(table.words(), &mut self.seat, 0, 1, Kind::DropCredit);
        Touched { at: 0, found }
    }

    /// The key of a row that the pass knows, by a load that is no step.
    pub(crate) fn key_of(&mut self, table: &TaskTable<C>, row: u32) -> u64
        requires table { self.old.table ≡ table.now }
        requires can { KnowsRow C.setting self.old.view row (known_key row self.old.view) }
        ensures key { result ≡ known_key row self.old.view }
        ensures same { self.new ≡ self.old }
    {
        let word = table.key_place(row);
        glance(table.words(), &mut self.seat, word) - 1
    }

    /// The life after the one that the pass replaces, by a load that is no step.
    pub(crate) fn next_life(&mut self, table: &TaskTable<C>, row: u32) -> u32
        requires table { self.old.table ≡ table.now }
        requires renews { Renews C.setting self.old.view row (known_key row self.old.view) (work_life self.old.view) }
        ensures life { result ≡ work_life self.old.view + 1 }
        ensures few { result ≤ 65535 }
        ensures same { self.new ≡ self.old }
    {
        let word = table.recovery_place(row);
        Recovery::of_word(glance(table.words(), &mut self.seat, word)).life + 1
    }

    /// Whether the table was stopped, by a load that is no step.
    pub(crate) fn sees_stop(&mut self, table: &TaskTable<C>) -> bool
        requires table { self.old.table ≡ table.now }
        ensures seen { StopSeen C.setting self.old.view result }
        ensures same { self.new ≡ self.old }
    {
        glance(table.words(), &mut self.seat, 1) == 1
    }

    /// Where a notify word of a row's task stands.
    pub(crate) fn notify_place(&self, table: &TaskTable<C>, row: u32, word: u32) -> usize
        requires row { row < C.setting.shape.rows }
        requires word { word < C.setting.graph.notify_words (known_key row self.now.view) }
        ensures place { result ≡ place_of C.setting.shape (notify_spot row word) }
    {
        self.is_pass();
        table.notify_place(row, word)
    }

    /// Where the notify word stands in which a port is to be registered.
    pub(crate) fn port_place(&self, table: &TaskTable<C>, row: u32, port: u32) -> usize
        requires can { CanRegister C.setting self.now.view row (known_key row self.now.view) port }
        ensures place { result ≡ place_of C.setting.shape (notify_spot row (port / 40)) }
    {
        self.is_pass();
        table.notify_place(row, port / PORTS_PER_WORD)
    }
}
