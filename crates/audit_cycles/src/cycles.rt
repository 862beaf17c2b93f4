ghost use Rattle.std.specs.Prelude.{◌≡◌, ◌<◌, ◌≤◌, ◌^◌, ℕ, true, false, length, slice_index, All, IfOk, MatchOption};
ghost use Rattle.audit_checks.specs.Rows.{rows_of, row, Names, IsWithin};
ghost use Rattle.audit_cycles.specs.Levels.{level};
ghost use Rattle.audit_cycles.specs.Ancestors.{IsOnCycle, HasNoCycleBefore, IsFirstOnCycle, IsOrdering};
ghost use Rattle.audit_cycles.specs.Components.{NeverRises};

use crate::components::components;
use crate::levels::levels_of;
use crate::search::ancestors;
use std::alloc::{AllocError, Global};

/// What an ordering of the tasks comes to.
#[derive(Drop)]
pub enum Ordered {
    /// The level of each task.
    Levels(Vec<u32>),
    /// The first task on a cycle.
    Cycle(usize),
}

// The highest number of the tasks that are named, or 0.
fn highest(numbers: &[usize], named: &[(u32, u32)]) -> usize
    requires { IsWithin (length numbers.now) named.now }
    ensures { (p : ℕ) → Names named.now p → slice_index numbers.now p ≤ result }
{
    let mut high = 0;
    for (p, _) in named {
        high = high.max(numbers[*p as usize]);
    }
    high
}

// Whether no predecessor has a greater number than its task.
fn never_rises(numbers: &[usize], places: &[Vec<(u32, u32)>]) -> bool
    requires long { length numbers.now ≡ length places.now }
    requires inside { All (IsWithin (length places.now)) (rows_of places.now) }
    ensures { result ≡ true → NeverRises numbers.now (rows_of places.now) }
{
    for i in 0..places.len() {
        if highest(numbers, places[i].as_slice()) > numbers[i] {
            return false;
        }
    }
    true
}

// Whether task k is its own ancestor.
fn is_on_cycle(alloc: Global, places: &[Vec<(u32, u32)>], k: usize) -> Result<bool, AllocError>
    requires task { k < length places.now }
    requires inside { All (IsWithin (length places.now)) (rows_of places.now) }
    ensures yes { IfOk result (λ b. b ≡ true → IsOnCycle (rows_of places.now) k) }
    ensures no { IfOk result (λ b. b ≡ false → ¬ IsOnCycle (rows_of places.now) k) }
{
    for (p, _) in &places[k] {
        let seen = ancestors(alloc, places, *p)?;
        if seen[k] {
            return Ok(true);
        }
    }
    Ok(false)
}

// The first task on a cycle, if there is one.
fn first_on_cycle(alloc: Global, places: &[Vec<(u32, u32)>]) -> Result<Option<usize>, AllocError>
    requires few { length places.now < 2 ^ 32 }
    requires inside { All (IsWithin (length places.now)) (rows_of places.now) }
    ensures { IfOk result (λ found. MatchOption found (HasNoCycleBefore (rows_of places.now) (length places.now)) (IsFirstOnCycle (rows_of places.now))) }
{
    let numbers = components(alloc, places)?;
    let helpful = never_rises(numbers.as_slice(), places);
    for k in 0..places.len() {
        if helpful && highest(numbers.as_slice(), places[k].as_slice()) < numbers[k] {
            continue;
        }
        if is_on_cycle(alloc, places, k)? {
            return Ok(Some(k));
        }
    }
    Ok(None)
}

// Whether a task has no level.
fn lacks_level(levels: &[u32]) -> bool
    ensures { result ≡ false → (k : ℕ) → k < length levels.now → 0 < level levels.now k }
{
    levels.contains(&0)
}

// The levels of the tasks, or else the first task on a cycle.
pub fn levels_or_cycle(alloc: Global, places: &[Vec<(u32, u32)>]) -> Result<Ordered, AllocError>
    requires few { length places.now < 2 ^ 32 }
    requires inside { All (IsWithin (length places.now)) (rows_of places.now) }
    ensures { IfOk result (IsOrdering (rows_of places.now)) }
{
    let levels = levels_of(alloc, places)?;
    if !lacks_level(levels.as_slice()) {
        return Ok(Ordered::Levels(levels));
    }
    match first_on_cycle(alloc, places)? {
        Some(k) => Ok(Ordered::Cycle(k)),
        None => Ok(Ordered::Levels(levels)),
    }
}
