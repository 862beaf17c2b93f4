//! The numbers of the tasks with given keys.

ghost use Rattle.std.specs.Prelude.{◌≡◌, ◌<◌, ◌≤◌, ◌^◌, length, slice_index, IfSome, MatchOption, Contains};
ghost use Rattle.audit_checks.specs.Tasks.{IsAscending};

use std::alloc::{AllocError, Global};

// Slots for each key, so that few keys share a first slot.
const SLOTS: usize = 4;

// A key may stand in so many slots, from its first one on. One that finds them all taken stands in none.
const LOOKS: usize = 8;

// What an empty slot holds. It is no task's number.
const EMPTY: u32 = u32::MAX;

/// Where keys stand, by their hashes. A slot is believed only once the key there was compared, so nothing but time
/// rests on what the slots hold.
#[derive(Drop)]
pub struct KeyIndex {
    slots: Vec<u32>,
}

// The first slot of a key: a part of so many slots as the key's hash is of all hashes.
fn first_slot(key: u64, count: usize) -> usize
    ensures { result < 2 ^ 32 }
{
    let mixed = (key ^ (key >> 32)).wrapping_mul(0x9E37_79B9_7F4A_7C15);
    ((mixed >> 32).wrapping_mul(count as u64) >> 32) as usize
}

// Notes where a key stands, if one of its slots is empty.
fn note(slots: &mut [u32], key: u64, number: u32) {
    let first = first_slot(key, slots.len());
    for at in first..first + LOOKS {
        match slots.get_mut(at) {
            Some(slot) if *slot == EMPTY => {
                *slot = number;
                return;
            }
            _ => {}
        }
    }
}

// Where a key stands among keys that follow one another without a gap: most files number their tasks so.
fn find_by_distance(keys: &[u64], key: u64) -> Option<usize>
    ensures { IfSome result (λ i. (i < length keys.now) × (slice_index keys.now i ≡ key)) }
{
    let first = keys.first()?;
    let i = key.checked_sub(*first)? as usize;
    if *keys.get(i)? == key { Some(i) } else { None }
}

impl KeyIndex {
    /// The places of these keys.
    pub fn of(alloc: Global, keys: &[u64]) -> Result<KeyIndex, AllocError>
        requires { length keys.now ≤ 16384 }
    {
        let mut slots = vec![in alloc; EMPTY; SLOTS * keys.len() + LOOKS]?;
        for i in 0..keys.len() {
            note(slots.as_mut_slice(), keys[i], i as u32);
        }
        Ok(KeyIndex { slots })
    }

    // Where a key stands, if one of its slots says so.
    fn find_by_slot(&self, keys: &[u64], key: u64) -> Option<usize>
        ensures { IfSome result (λ i. (i < length keys.now) × (slice_index keys.now i ≡ key)) }
    {
        let first = first_slot(key, self.slots.len());
        for at in first..first + LOOKS {
            let i = *self.slots.get(at)? as usize;
            if *keys.get(i)? == key {
                return Some(i);
            }
        }
        None
    }

    // Where a key stands, if it is quickly found.
    fn guess(&self, keys: &[u64], key: u64) -> Option<usize>
        ensures { IfSome result (λ i. (i < length keys.now) × (slice_index keys.now i ≡ key)) }
    {
        match find_by_distance(keys, key) {
            Some(i) => Some(i),
            None => self.find_by_slot(keys, key),
        }
    }

    /// Where a key stands.
    pub fn find(&self, keys: &[u64], key: u64) -> Option<usize>
        requires { IsAscending keys.now }
        ensures { MatchOption result (¬ Contains keys.now key) (λ i. (i < length keys.now) × (slice_index keys.now i ≡ key)) }
    {
        if let Some(i) = self.guess(keys, key) {
            return Some(i);
        }
        match keys.binary_search(&key) {
            Ok(i) => Some(i),
            Err(_) => None,
        }
    }

    /// The number of the task with this key.
    pub fn number_of(&self, keys: &[u64], key: u64) -> usize
        requires ascending { IsAscending keys.now }
        requires known { Contains keys.now key }
        ensures inside { result < length keys.now }
        ensures key { slice_index keys.now result ≡ key }
    {
        self.find(keys, key).unwrap()
    }
}
