//! Single steps on a word, of which the caller picks what each tells. What it is picked by is passed along,
//! and not read.
ghost use Rattle.std.specs.Prelude.{◌≡◌, ◌+◌, ◌-◌, ◌%◌, ◌^◌, ◌<◌, ◌==◌, bit_or};
ghost use prog.Atomic.{either};
ghost use Rattle.atomic_table.specs.Table.{Allows};
ghost use Rattle.task_table.specs.Kept.{Kept};

use crate::rule::{Token, Words};
use atomic_table::Play;
use core_state::{BlockCells, Course, View};
use core_steps::kinds::{BlockKind, Kind};
use std::marker::{Brand, PhantomData};

/// What a step tells its caller, who picks it at the call.
pub trait Tells {
    ghost use Rattle.std.specs.Prelude.{ℕ};
    ghost use Rattle.task_table.specs.Moments.{Mine};

    // Of the seat before, the number found and the seat after.
    ghost then: { Mine → ℕ → Mine → Type 0 };
}

impl Tells for Brand {
    ghost then = { λ _ _ _. Unit {0} };
}

struct Told<A: Tells> {
    told: PhantomData<A>,
}

impl<A: Tells> Play<Option<BlockCells>, View> for Told<A> {
    ghost then = { λ _ me n now. A.then me n now };
}

pub(crate) fn load_told<C: Course, A: Tells>(
    table: &Words<C>,
    seat: &mut Token,
    word: usize,
    _kind: Kind,
) -> u64
    requires table { (seat.old.table_id ≡ table.now.table_id) × (word < table.now.table_id.words) }
    requires keeps { Allows (Kept C.setting) table.now.table_id.slots seat.old.id seat.old.me word (λ n. n) (A.then seat.old.me) }
    ensures same { (seat.new.table_id ≡ seat.old.table_id) × (seat.new.id ≡ seat.old.id) }
    ensures told { A.then seat.old.me result seat.new.me }
{
    table.load::<Told<A>>(seat, word)
}

/// A load with which a result enters the view.
pub(crate) fn load_made<C: Course, A: Tells>(
    table: &Words<C>,
    seat: &mut Token,
    word: usize,
    _key: u64,
    _life: u32,
) -> u64
    requires table { (seat.old.table_id ≡ table.now.table_id) × (word < table.now.table_id.words) }
    requires keeps { Allows (Kept C.setting) table.now.table_id.slots seat.old.id seat.old.me word (λ n. n) (A.then seat.old.me) }
    ensures same { (seat.new.table_id ≡ seat.old.table_id) × (seat.new.id ≡ seat.old.id) }
    ensures told { A.then seat.old.me result seat.new.me }
{
    table.load::<Told<A>>(seat, word)
}

/// A load that is no step.
pub(crate) fn load_only<C: Course, A: Tells>(table: &Words<C>, seat: &mut Token, word: usize) -> u64
    requires table { (seat.old.table_id ≡ table.now.table_id) × (word < table.now.table_id.words) }
    requires keeps { Allows (Kept C.setting) table.now.table_id.slots seat.old.id seat.old.me word (λ n. n) (A.then seat.old.me) }
    ensures same { (seat.new.table_id ≡ seat.old.table_id) × (seat.new.id ≡ seat.old.id) }
    ensures told { A.then seat.old.me result seat.new.me }
{
    table.load::<Told<A>>(seat, word)
}

pub(crate) fn swap_told<C: Course, A: Tells>(
    table: &Words<C>,
    seat: &mut Token,
    word: usize,
    new: u64,
    _kind: Kind,
) -> u64
    requires table { (seat.old.table_id ≡ table.now.table_id) × (word < table.now.table_id.words) }
    requires keeps { Allows (Kept C.setting) table.now.table_id.slots seat.old.id seat.old.me word (λ _. new) (A.then seat.old.me) }
    ensures same { (seat.new.table_id ≡ seat.old.table_id) × (seat.new.id ≡ seat.old.id) }
    ensures told { A.then seat.old.me result seat.new.me }
{
    table.swap::<Told<A>>(seat, word, new)
}

/// A swap with which the block that lies in the slot taken last goes home.
pub(crate) fn swap_giving<C: Course, A: Tells>(
    table: &Words<C>,
    seat: &mut Token,
    word: usize,
    _kind: BlockKind,
    _block: u32,
) -> u64
    requires table { (seat.old.table_id ≡ table.now.table_id) × (word < table.now.table_id.words) }
    requires keeps { Allows (Kept C.setting) table.now.table_id.slots seat.old.id seat.old.me word (λ _. 0) (A.then seat.old.me) }
    ensures same { (seat.new.table_id ≡ seat.old.table_id) × (seat.new.id ≡ seat.old.id) }
    ensures told { A.then seat.old.me result seat.new.me }
{
    table.swap::<Told<A>>(seat, word, 0)
}

pub(crate) fn add_told<C: Course, A: Tells>(
    table: &Words<C>,
    seat: &mut Token,
    word: usize,
    by: u64,
    _kind: Kind,
) -> u64
    requires table { (seat.old.table_id ≡ table.now.table_id) × (word < table.now.table_id.words) }
    requires keeps { Allows (Kept C.setting) table.now.table_id.slots seat.old.id seat.old.me word (λ n. (n + by) % 2 ^ 64) (A.then seat.old.me) }
    ensures same { (seat.new.table_id ≡ seat.old.table_id) × (seat.new.id ≡ seat.old.id) }
    ensures told { A.then seat.old.me result seat.new.me }
{
    table.fetch_add::<Told<A>>(seat, word, by)
}

pub(crate) fn sub_told<C: Course, A: Tells>(
    table: &Words<C>,
    seat: &mut Token,
    word: usize,
    by: u64,
    _kind: Kind,
) -> u64
    requires table { (seat.old.table_id ≡ table.now.table_id) × (word < table.now.table_id.words) }
    requires keeps { Allows (Kept C.setting) table.now.table_id.slots seat.old.id seat.old.me word (λ n. (n + (2 ^ 64 - by)) % 2 ^ 64) (A.then seat.old.me) }
    ensures same { (seat.new.table_id ≡ seat.old.table_id) × (seat.new.id ≡ seat.old.id) }
    ensures told { A.then seat.old.me result seat.new.me }
{
    table.fetch_sub::<Told<A>>(seat, word, by)
}

pub(crate) fn or_told<C: Course, A: Tells>(
    table: &Words<C>,
    seat: &mut Token,
    word: usize,
    bits: u64,
    _kind: Kind,
) -> u64
    requires table { (seat.old.table_id ≡ table.now.table_id) × (word < table.now.table_id.words) }
    requires keeps { Allows (Kept C.setting) table.now.table_id.slots seat.old.id seat.old.me word (λ n. bit_or n bits) (A.then seat.old.me) }
    ensures same { (seat.new.table_id ≡ seat.old.table_id) × (seat.new.id ≡ seat.old.id) }
    ensures told { A.then seat.old.me result seat.new.me }
{
    table.fetch_or::<Told<A>>(seat, word, bits)
}

pub(crate) fn exchange_told<C: Course, A: Tells>(
    table: &Words<C>,
    seat: &mut Token,
    word: usize,
    old: u64,
    new: u64,
    _kind: Kind,
) -> u64
    requires table { (seat.old.table_id ≡ table.now.table_id) × (word < table.now.table_id.words) }
    requires keeps { Allows (Kept C.setting) table.now.table_id.slots seat.old.id seat.old.me word (λ n. either (n == old) new n) (A.then seat.old.me) }
    ensures same { (seat.new.table_id ≡ seat.old.table_id) × (seat.new.id ≡ seat.old.id) }
    ensures told { A.then seat.old.me result seat.new.me }
{
    table.compare_exchange::<Told<A>>(seat, word, old, new)
}

/// An exchange with which a block is taken out, where its turn word was 0.
pub(crate) fn exchange_taking<C: Course, A: Tells>(
    table: &Words<C>,
    seat: &mut Token,
    word: usize,
    _block: u32,
) -> u64
    requires table { (seat.old.table_id ≡ table.now.table_id) × (word < table.now.table_id.words) }
    requires keeps { Allows (Kept C.setting) table.now.table_id.slots seat.old.id seat.old.me word (λ n. either (n == 0) 1 n) (A.then seat.old.me) }
    ensures same { (seat.new.table_id ≡ seat.old.table_id) × (seat.new.id ≡ seat.old.id) }
    ensures told { A.then seat.old.me result seat.new.me }
{
    table.compare_exchange::<Told<A>>(seat, word, 0, 1)
}
