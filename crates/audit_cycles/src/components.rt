//! Strongly connected components, by Kosaraju's two walks: the numbers that show of most tasks that they are on no cycle.
//! Only time rests on it.

ghost use Rattle.std.specs.Prelude.{◌≡◌, ◌<◌, ◌≤◌, ◌^◌, ℕ, length, All, Contains, IfOk, OnOk};
ghost use Rattle.audit_checks.specs.Rows.{rows_of, IsWithin};
ghost use Rattle.audit_cycles.specs.Components.{AreRows, Walks, walk_left, Searches};

use crate::search::Search;
use audit_checks::{empty_rows, push_at};
use std::alloc::{AllocError, Global};

// The first walk, up through the places. A task is written behind the tasks that are entered from it.
#[derive(Drop)]
struct Walk {
    seen: Vec<bool>,
    // The tasks on the way, each with the place that it looks at next.
    path: Vec<(u32, usize)>,
    order: Vec<u32>,
}

impl Walk {
    // Goes on to task p, if it is new.
    fn enter(&mut self, p: u32) -> Result<(), AllocError>
        requires walks { Walks self.old }
        requires task { p < length self.old.seen.items }
        ensures walks { OnOk result (Walks self.new) }
        ensures long { length self.new.seen.items ≡ length self.old.seen.items }
        ensures falls { OnOk result ((most : ℕ) → walk_left most self.new ≤ walk_left most self.old) }
    {
        if !self.seen[p as usize] {
            self.seen[p as usize] = true;
            self.path.push((p, 0))?;
        }
        Ok(())
    }

    // Walks up from task k as far as what it meets is new.
    fn climb(&mut self, places: &[Vec<(u32, u32)>], k: u32) -> Result<(), AllocError>
        requires inside { All (IsWithin (length places.now)) (rows_of places.now) }
        requires walks { Walks self.old }
        requires long { length self.old.seen.items ≡ length places.now }
        requires task { k < length places.now }
        ensures walks { OnOk result (Walks self.new) }
        ensures long { OnOk result (length self.new.seen.items ≡ length places.now) }
    {
        self.enter(k)?;
        while let Some((task, j)) = self.path.pop() {
            match places[task as usize].get(j) {
                Some((p, _)) => {
                    self.path.push((task, j + 1))?;
                    self.enter(*p)?;
                }
                None => self.order.push(task)?,
            }
        }
        Ok(())
    }
}

// The tasks, each behind its ancestors as far as there is no cycle.
fn walk_order(alloc: Global, places: &[Vec<(u32, u32)>]) -> Result<Vec<u32>, AllocError>
    requires few { length places.now < 2 ^ 32 }
    requires inside { All (IsWithin (length places.now)) (rows_of places.now) }
    ensures { IfOk result (λ order. (k : ℕ) → Contains order.items k → k < length places.now) }
{
    let mut walk = Walk {
        seen: vec![in alloc; false; places.len()]?,
        path: Vec::new(alloc),
        order: Vec::new(alloc),
    };
    for k in 0..places.len() {
        walk.climb(places, k as u32)?;
    }
    Ok(walk.order)
}

// By task, the tasks that name it.
fn reversed(alloc: Global, places: &[Vec<(u32, u32)>]) -> Result<Vec<Vec<(u32, u32)>>, AllocError>
    requires few { length places.now < 2 ^ 32 }
    requires inside { All (IsWithin (length places.now)) (rows_of places.now) }
    ensures { IfOk result (λ rows. AreRows (length places.now) rows.items) }
{
    let mut rows = empty_rows(alloc, places.len())?;
    for k in 0..places.len() {
        for (p, _) in &places[k] {
            push_at(&mut rows, *p as usize, (k as u32, 0))?;
        }
    }
    Ok(rows)
}

// The second walk, down from a task: gives the number to the tasks that the search is to look at, and to all that it then sees.
fn spread(
    search: &mut Search,
    succs: &[Vec<(u32, u32)>],
    numbers: &mut Vec<usize>,
    number: usize,
) -> Result<(), AllocError>
    requires rows { AreRows (length succs.now) succs.now }
    requires searches { Searches (length succs.now) search.old }
    requires long { length numbers.old.items ≡ length succs.now }
    ensures searches { OnOk result (Searches (length succs.now) search.new) }
    ensures long { OnOk result (length numbers.new.items ≡ length succs.now) }
{
    while let Some(k) = search.left.pop() {
        numbers[k as usize] = number;
        search.see_all(succs[k as usize].as_slice())?;
    }
    Ok(())
}

// By task, a number of its component, meant to be no greater for a predecessor. Nothing rests on that.
pub fn components(alloc: Global, places: &[Vec<(u32, u32)>]) -> Result<Vec<usize>, AllocError>
    requires few { length places.now < 2 ^ 32 }
    requires inside { All (IsWithin (length places.now)) (rows_of places.now) }
    ensures { IfOk result (λ numbers. length numbers.items ≡ length places.now) }
{
    let mut order = walk_order(alloc, places)?;
    let succs = reversed(alloc, places)?;
    let mut numbers = vec![in alloc; 0usize; places.len()]?;
    let mut search = Search {
        seen: vec![in alloc; false; places.len()]?,
        left: Vec::new(alloc),
    };
    while let Some(k) = order.pop() {
        search.see(k)?;
        spread(&mut search, succs.as_slice(), &mut numbers, order.len() + 1)?;
    }
    Ok(numbers)
}
