//! Steps of a seat on a word, each told whole: what was found, and what the event leaves of the view.
ghost use Rattle.std.specs.Prelude.{◌≡◌, ℕ, ◌+◌, ◌-◌, ◌%◌, ◌^◌, ◌<◌, ◌==◌, [], ◌∷◌, bit_or, false};
ghost use prog.Atomic.{either};
ghost use Rattle.atomic_table.specs.Table.{rest};
ghost use Rattle.core_state.specs.Events.{at, left as left_by};
ghost use Rattle.core_state.specs.Guards.{CanCompute, CanTakeTurn};
ghost use Rattle.core_state.specs.Words.{place_of, turn};
ghost use Rattle.core_steps.specs.Kinds.{event_of, block_event, gives, moves_block};
ghost use Rattle.task_table.specs.Moments.{Did, Glance, IsReady, IsWide, Looked, Made, Seated, Took, emptied, first_block};

use crate::plays::{
    add_told, exchange_taking, exchange_told, load_made, load_only, load_told, or_told, sub_told,
    swap_giving, swap_told,
};
use crate::rule::{Token, Words};
use core_state::Course;
use core_steps::kinds::{BlockKind, Kind};
use std::marker::Brand;

pub(crate) fn load<C: Course>(table: &Words<C>, seat: &mut Token, word: usize, kind: Kind) -> u64
    requires table { seat.old.table_id ≡ table.now.table_id }
    requires ready { IsReady C.setting table.now.table_id seat.old.me.0 (event_of seat.old.me.0 kind) word }
    requires calm { (n : ℕ) → moves_block (event_of seat.old.me.0 kind) n ≡ false }
    requires leaves { (n : ℕ) → left_by C.setting (event_of seat.old.me.0 kind) n ≡ n }
    ensures same { (seat.new.table_id ≡ seat.old.table_id) × (seat.new.id ≡ seat.old.id) }
    ensures did { Did C.setting (event_of seat.old.me.0 kind) seat.old.me.1 seat.old.me.0 result seat.new.me }
{
    load_told::<C, Brand>(table, seat, word, kind)
}

pub(crate) fn swap<C: Course>(
    table: &Words<C>,
    seat: &mut Token,
    word: usize,
    new: u64,
    kind: Kind,
) -> u64
    requires table { seat.old.table_id ≡ table.now.table_id }
    requires ready { IsReady C.setting table.now.table_id seat.old.me.0 (event_of seat.old.me.0 kind) word }
    requires calm { (n : ℕ) → moves_block (event_of seat.old.me.0 kind) n ≡ false }
    requires leaves { (n : ℕ) → left_by C.setting (event_of seat.old.me.0 kind) n ≡ new }
    ensures same { (seat.new.table_id ≡ seat.old.table_id) × (seat.new.id ≡ seat.old.id) }
    ensures did { Did C.setting (event_of seat.old.me.0 kind) seat.old.me.1 seat.old.me.0 result seat.new.me }
{
    swap_told::<C, Brand>(table, seat, word, new, kind)
}

pub(crate) fn or<C: Course>(
    table: &Words<C>,
    seat: &mut Token,
    word: usize,
    bits: u64,
    kind: Kind,
) -> u64
    requires table { seat.old.table_id ≡ table.now.table_id }
    requires ready { IsReady C.setting table.now.table_id seat.old.me.0 (event_of seat.old.me.0 kind) word }
    requires calm { (n : ℕ) → moves_block (event_of seat.old.me.0 kind) n ≡ false }
    requires leaves { (n : ℕ) → left_by C.setting (event_of seat.old.me.0 kind) n ≡ bit_or n bits }
    ensures same { (seat.new.table_id ≡ seat.old.table_id) × (seat.new.id ≡ seat.old.id) }
    ensures did { Did C.setting (event_of seat.old.me.0 kind) seat.old.me.1 seat.old.me.0 result seat.new.me }
{
    or_told::<C, Brand>(table, seat, word, bits, kind)
}

pub(crate) fn exchange<C: Course>(
    table: &Words<C>,
    seat: &mut Token,
    word: usize,
    old: u64,
    new: u64,
    kind: Kind,
) -> u64
    requires table { seat.old.table_id ≡ table.now.table_id }
    requires ready { IsReady C.setting table.now.table_id seat.old.me.0 (event_of seat.old.me.0 kind) word }
    requires calm { (n : ℕ) → moves_block (event_of seat.old.me.0 kind) n ≡ false }
    requires leaves { (n : ℕ) → left_by C.setting (event_of seat.old.me.0 kind) n ≡ either (n == old) new n }
    ensures same { (seat.new.table_id ≡ seat.old.table_id) × (seat.new.id ≡ seat.old.id) }
    ensures did { Did C.setting (event_of seat.old.me.0 kind) seat.old.me.1 seat.old.me.0 result seat.new.me }
{
    exchange_told::<C, Brand>(table, seat, word, old, new, kind)
}

/// Buys a credit: pending is too small to wrap.
pub(crate) fn add<C: Course>(
    table: &Words<C>,
    seat: &mut Token,
    word: usize,
    by: u64,
    kind: Kind,
) -> u64
    requires table { seat.old.table_id ≡ table.now.table_id }
    requires ready { IsReady C.setting table.now.table_id seat.old.me.0 (event_of seat.old.me.0 kind) word }
    requires calm { (n : ℕ) → moves_block (event_of seat.old.me.0 kind) n ≡ false }
    requires leaves { (n : ℕ) → Glance C.setting word seat.old.me.0 n → left_by C.setting (event_of seat.old.me.0 kind) n ≡ (n + by) % 2 ^ 64 }
    ensures same { (seat.new.table_id ≡ seat.old.table_id) × (seat.new.id ≡ seat.old.id) }
    ensures did { Did C.setting (event_of seat.old.me.0 kind) seat.old.me.1 seat.old.me.0 result seat.new.me }
{
    add_told::<C, Brand>(table, seat, word, by, kind)
}

/// Drops a credit: pending counts it, so it is not 0.
pub(crate) fn sub<C: Course>(
    table: &Words<C>,
    seat: &mut Token,
    word: usize,
    by: u64,
    kind: Kind,
) -> u64
    requires table { seat.old.table_id ≡ table.now.table_id }
    requires ready { IsReady C.setting table.now.table_id seat.old.me.0 (event_of seat.old.me.0 kind) word }
    requires calm { (n : ℕ) → moves_block (event_of seat.old.me.0 kind) n ≡ false }
    requires leaves { (n : ℕ) → Glance C.setting word seat.old.me.0 n → left_by C.setting (event_of seat.old.me.0 kind) n ≡ (n + (2 ^ 64 - by)) % 2 ^ 64 }
    ensures same { (seat.new.table_id ≡ seat.old.table_id) × (seat.new.id ≡ seat.old.id) }
    ensures did { Did C.setting (event_of seat.old.me.0 kind) seat.old.me.1 seat.old.me.0 result seat.new.me }
{
    sub_told::<C, Brand>(table, seat, word, by, kind)
}

/// Takes a block where its turn word is 0: it lies in the slot that was taken last.
pub(crate) fn take<C: Course>(table: &Words<C>, seat: &mut Token, word: usize, block: u32) -> u64
    requires table { seat.old.table_id ≡ table.now.table_id }
    requires wide { IsWide C.setting table.now.table_id }
    requires seated { Seated C.setting seat.old.me.0 }
    requires live { 0 < seat.old.me.0.parts }
    requires can { CanTakeTurn C.setting seat.old.me.0 block }
    requires word { word ≡ place_of C.setting.shape (turn block) }
    ensures same { (seat.new.table_id ≡ seat.old.table_id) × (seat.new.id ≡ seat.old.id) }
    ensures took { Took C.setting block seat.old.me result seat.new.me }
{
    exchange_taking::<C, Brand>(table, seat, word, block)
}

/// Gives the block home that lies in the slot that was taken last.
pub(crate) fn give<C: Course>(
    table: &Words<C>,
    seat: &mut Token,
    word: usize,
    kind: BlockKind,
    block: u32,
) -> u64
    requires table { seat.old.table_id ≡ table.now.table_id }
    requires ready { IsReady C.setting table.now.table_id seat.old.me.0 (block_event seat.old.me.0 kind block (first_block seat.old.me.1)) word }
    requires gives { gives kind ≡ Rattle.std.specs.Prelude.true }
    requires lies { seat.old.me.1 ≡ (block, Rattle.std.specs.Prelude.Some (first_block seat.old.me.1)) ∷ rest (emptied seat.old.me.0.hands) }
    ensures same { (seat.new.table_id ≡ seat.old.table_id) × (seat.new.id ≡ seat.old.id) }
    ensures did { Did C.setting (block_event seat.old.me.0 kind block (first_block seat.old.me.1)) (rest seat.old.me.1) seat.old.me.0 result seat.new.me }
{
    swap_giving::<C, Brand>(table, seat, word, kind, block)
}

/// Makes a result known, with a load that is no step.
pub(crate) fn make<C: Course>(table: &Words<C>, seat: &mut Token, key: u64, life: u32)
    requires table { seat.old.table_id ≡ table.now.table_id }
    requires wide { IsWide C.setting table.now.table_id }
    requires live { 0 < seat.old.me.0.parts }
    requires can { CanCompute C.setting seat.old.me.0 key life }
    ensures same { (seat.new.table_id ≡ seat.old.table_id) × (seat.new.id ≡ seat.old.id) }
    ensures made { Made C.setting key life seat.old.me seat.new.me }
{
    load_made::<C, Brand>(table, seat, 0, key, life);
}

/// Loads a word, which is no step.
pub(crate) fn glance<C: Course>(table: &Words<C>, seat: &mut Token, word: usize) -> u64
    requires table { (seat.old.table_id ≡ table.now.table_id) × (word < table.now.table_id.words) }
    ensures same { (seat.new.table_id ≡ seat.old.table_id) × (seat.new.id ≡ seat.old.id) }
    ensures looked { Looked C.setting word seat.old.me result seat.new.me }
{
    load_only::<C, Brand>(table, seat, word)
}
