//! The parts of a table that is made.
ghost use Rattle.std.specs.Prelude.{◌≡◌, ◌≤◌, ◌<◌, ◌-◌, ◌^◌, ◌%◌, eqb, length, slice_index, slice_index_or, vec_len, vec_capacity, IfOk};
ghost use Rattle.core_state.specs.Tests.{key_named};
ghost use Rattle.core_state.specs.Effects.{close_left, elect_left};
ghost use Rattle.core_state.specs.Outcome.{told_entries, closed_entries, elected_entries, hitting_entries};
ghost use Rattle.core_state.specs.Packed.{IsLife};
ghost use Rattle.core_state.specs.RowWords.{shape_with};
ghost use Rattle.core_steps.specs.Table.{words_of, IsFilled, IsUnwritten, IsBare, IsAll, home_at, FitsCells, ShowsCells, as_list, is_replacing as is_replaced_record, kept_store, kept_list, kept_room, HasRoom};

use crate::store::Store;
use core_state::{BlockCells, Closing, Elected, Hitting, NotifyWord, ROOT, RowWords, Told};
use graph_model::{Cause, Cells, Hit, Key, Record};
use std::alloc::{AllocError, Global};

/// Blocks with so many cells that were never written.
pub fn new_blocks(alloc: Global, cells: &[usize]) -> Result<Vec<Option<BlockCells>>, AllocError>
    ensures length { IfOk result (λ v. length v.items ≡ length cells.now) }
    ensures unwritten { IfOk result (λ v. IsUnwritten v.items) }
    ensures filled { IfOk result (λ v. IsFilled cells.now v.items) }
{
    let mut blocks = Vec::with_capacity(alloc, cells.len())?;
    for i in 0..cells.len() {
        let zeros = vec![in alloc; 0i64; cells[i]]?;
        blocks.push(Some(BlockCells {
            tag: 0,
            struck: false,
            cells: Cells::from_vec(zeros),
        }))?;
    }
    Ok(blocks)
}

/// Room for as many cells as the last block has.
pub fn last_room(alloc: Global, cells: &[usize]) -> Result<Vec<i64>, AllocError>
    requires { 0 < length cells.now }
    ensures { IfOk result (λ v. length v.items ≡ slice_index cells.now (length cells.now - 1)) }
{
    Ok(vec![in alloc; 0i64; cells[cells.len() - 1]]?)
}

/// The cells of a block that is at home and was written, in room for so many.
pub fn written_cells(blocks: &[Option<BlockCells>], block: usize, room: Vec<i64>) -> Option<Cells>
    requires within { block < length blocks.now }
    requires fits { FitsCells (home_at blocks.now block) (length room.items) }
    ensures { ShowsCells (home_at blocks.now block) result }
{
    let mut room = room;
    match &blocks[block] {
        Some(home) if home.tag > 0 => {
            room.copy_from_slice(home.cells.as_slice());
            Some(Cells::from_vec(room))
        }
        _ => None,
    }
}

/// So many stores without records.
pub(crate) fn new_stores(alloc: Global, workers: usize) -> Result<Vec<Store>, AllocError>
    ensures length { IfOk result (λ v. length v.items ≡ workers) }
    ensures bare { IfOk result (λ v. IsBare v.items) }
{
    let mut stores = Vec::with_capacity(alloc, workers)?;
    for _worker in 0..workers {
        stores.push(Store::new(alloc))?;
    }
    Ok(stores)
}

/// The records of all stores.
pub(crate) fn all_records(alloc: Global, stores: &[Store]) -> Result<Vec<Record>, AllocError>
    ensures { IfOk result (λ v. IsAll v.items stores.now) }
{
    let mut all = Vec::new(alloc);
    for worker in 0..stores.len() {
        all.extend_from_slice(stores[worker].as_slice())?;
    }
    Ok(all)
}

/// The words of a new table: pending is 1, and the root's key stands in its row.
pub fn first_words_of(
    alloc: Global,
    places: RowWords,
    blocks: usize,
) -> Result<Vec<u64>, AllocError>
    requires some { 1 ≤ places.rows }
    requires blocks { blocks ≤ 2 ^ 21 }
    ensures { IfOk result (λ v. v.items ≡ words_of (shape_with places blocks) (2 ^ 63)) }
{
    let mut words = vec![in alloc; 0u64; places.count(blocks)]?;
    words[0] = 1;
    words[places.key(root_row(places.rows))] = ROOT.0 + 1;
    Ok(words)
}

// The row of the root.
fn root_row(rows: u32) -> u32
    requires { 1 ≤ rows }
    ensures row { result ≡ 2 ^ 63 % rows }
    ensures within { result < rows }
{
    (ROOT.0 % u64::from(rows)) as u32
}

/// What is recorded of a spending.
pub fn spent_entry(key: u64, place: u32, told: Told) -> Option<Record>
    ensures { told_entries key place told ≡ as_list result }
{
    match told {
        Told::Spent { life } | Told::Last { life } => Some(Record::Spent {
            key: Key(key),
            life,
            place,
        }),
        Told::Already { .. } | Told::Struck { .. } => None,
    }
}

/// What is recorded of a closing.
pub fn closed_entry(key: u64, life: u32, word: u32, told: Closing) -> Option<Record>
    ensures { closed_entries key life word told ≡ as_list result }
{
    match told {
        Closing::Edges { .. } => Some(Record::Closed {
            key: Key(key),
            life,
            word,
        }),
        Closing::Stale { .. } | Closing::Struck { .. } | Closing::Moved { .. } => None,
    }
}

/// What is recorded of an election.
pub fn elected_entry(key: u64, life: u32, cause: Cause, told: Elected) -> Option<Record>
    ensures { elected_entries key life cause told ≡ as_list result }
{
    match told {
        Elected::Yes => Some(Record::Replaced {
            key: Key(key),
            life,
            cause,
        }),
        Elected::Replaced { .. } | Elected::Renewing { .. } => None,
    }
}

/// What is recorded of a strike on a word.
pub fn struck_entry(key: u64, hit: Hit, told: Hitting) -> Option<Record>
    ensures { hitting_entries key hit told ≡ as_list result }
{
    match told {
        Hitting::Landed { life } => Some(Record::Struck {
            key: Key(key),
            life,
            hit,
        }),
        Hitting::Missed { .. } => None,
    }
}

/// Notes a record, if there is one, in the room that there is. Of the root only replacements are kept,
/// in a list of their own.
pub fn keep(store: &mut Store, root_replaced: &mut Vec<Record>, entry: Option<Record>)
    requires store { 0 < store.old.room }
    requires list { 0 < vec_capacity root_replaced.old - vec_len root_replaced.old }
    ensures store { store.new ≡ kept_store (2 ^ 63) entry store.old }
    ensures list { root_replaced.new.items ≡ kept_list (2 ^ 63) entry root_replaced.old.items }
    ensures room { vec_capacity root_replaced.new - vec_len root_replaced.new ≡ kept_room (2 ^ 63) entry (vec_capacity root_replaced.old - vec_len root_replaced.old) }
{
    if let Some(entry) = entry {
        if !names_root(entry) {
            store.note(entry);
        } else if is_replacing(entry) {
            root_replaced.push_reserved(entry);
        }
    }
}

fn names_root(entry: Record) -> bool
    ensures { result ≡ eqb (2 ^ 63) (key_named entry) }
{
    let key = match entry {
        Record::Created { key }
        | Record::Spent { key, .. }
        | Record::Computed { key, .. }
        | Record::Written { key, .. }
        | Record::Closed { key, .. }
        | Record::Struck { key, .. }
        | Record::Replaced { key, .. } => key,
    };
    ROOT.0 == key.0
}

fn is_replacing(entry: Record) -> bool
    ensures { result ≡ is_replaced_record entry }
{
    matches!(entry, Record::Replaced { .. })
}

/// What an election leaves of the number that it found.
pub fn elected_number(life: u32, found: u64) -> u64
    requires life { IsLife life }
    requires few { found < 2 ^ 17 }
    ensures { result ≡ elect_left life found }
{
    if found == 2 * (u64::from(life) - 1) {
        found + 1
    } else {
        found
    }
}

/// What a closing leaves of the number that it found.
pub fn closed_number(seen: u64, found: u64) -> u64
    ensures { result ≡ close_left seen found }
{
    if found == seen {
        found | NotifyWord::closing_bit()
    } else {
        found
    }
}

/// The records of all stores, in the room of the first.
pub(crate) fn joined_records(stores: Vec<Store>) -> Vec<Record>
    requires some { 0 < length stores.items }
    requires room { HasRoom stores.items }
    ensures { IsAll result.items stores.items }
{
    let mut rest = stores;
    let mut all = rest.remove(0);
    for i in 0..rest.len() {
        all.note_all(rest[i].as_slice());
    }
    all.into_records()
}
