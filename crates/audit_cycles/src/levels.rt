//! A topological order of the tasks, by Kahn's algorithm, told as a level for each. Tasks on a cycle and behind one get none.

ghost use Rattle.std.specs.Prelude.{◌≡◌, ◌-◌, ◌+◌, ◌*◌, ◌<◌, ◌≤◌, ◌⊎◌, ◌^◌, ℕ, length, vec_len, All, Contains, IfOk, OnOk, IfErr, IsErr};
ghost use Rattle.audit_checks.specs.Rows.{rows_of, row, Names, IsWithin};
ghost use Rattle.audit_cycles.specs.Levels.{level, most, HasLevels, IsLevelling};
ghost use Rattle.audit_cycles.specs.Chains.{HasRank, IsNumbered};
ghost use Rattle.audit_cycles.specs.Work.{Sound, Settled, SettledBut, work_left};

use audit_checks::{empty_rows, push_at};
use std::alloc::{AllocError, Global};
use std::mem;

// Tasks that get their levels. A task without one waits at the first predecessor that has none.
#[derive(Drop)]
struct Levelling {
    levels: Vec<u32>,
    waiting: Vec<Vec<u32>>,
    ready: Vec<u32>,
}

// The greatest level among the places, or a task there that has none.
fn greatest(levels: &[u32], places: &[(u32, u32)]) -> Result<u32, u32>
    requires { IsWithin (length levels.now) places.now }
    ensures most { IfOk result (λ m. m ≡ most levels.now places.now) }
    ensures all { IfOk result (λ _. HasLevels levels.now places.now) }
    ensures named { IfErr result (λ p. Names places.now p) }
    ensures none_yet { IfErr result (λ p. level levels.now p ≡ 0) }
    ensures inside { IfErr result (λ p. p < length levels.now) }
{
    let [(p, _), rest @ ..] = places else {
        return Ok(0);
    };
    let here = levels[*p as usize];
    if here == 0 {
        return Err(*p);
    }
    match greatest(levels, rest) {
        Ok(there) => Ok(here.max(there)),
        Err(q) => Err(q),
    }
}

impl Levelling {
    // Gives task k its level, or lets it wait.
    fn settle(&mut self, places: &[Vec<(u32, u32)>], k: u32) -> Result<(), AllocError>
        requires few { length places.now < 2 ^ 32 }
        requires inside { All (IsWithin (length places.now)) (rows_of places.now) }
        requires task { k < length places.now }
        requires sound { Sound (rows_of places.now) self.old }
        ensures sound { OnOk result (Sound (rows_of places.now) self.new) }
        ensures here { OnOk result (Settled (rows_of places.now) self.new k) }
        ensures rest { OnOk result ((i : ℕ) → Settled (rows_of places.now) self.old i → Settled (rows_of places.now) self.new i) }
        ensures falls { OnOk result (work_left self.new ≤ work_left self.old) }
    {
        if self.levels[k as usize] != 0 {
            return Ok(());
        }
        match greatest(self.levels.as_slice(), places[k as usize].as_slice()) {
            Ok(most) => {
                self.levels[k as usize] = most + 1;
                self.ready.push(k)?;
            }
            Err(p) => push_at(&mut self.waiting, p as usize, k)?,
        }
        Ok(())
    }

    // Tells those that wait for task p.
    fn tell(&mut self, alloc: Global, places: &[Vec<(u32, u32)>], p: u32) -> Result<(), AllocError>
        requires few { length places.now < 2 ^ 32 }
        requires inside { All (IsWithin (length places.now)) (rows_of places.now) }
        requires task { p < length places.now }
        requires sound { Sound (rows_of places.now) self.old }
        requires settled { (i : ℕ) → i < length places.now → SettledBut (rows_of places.now) self.old p i }
        ensures sound { OnOk result (Sound (rows_of places.now) self.new) }
        ensures settled { OnOk result ((i : ℕ) → i < length places.now → Settled (rows_of places.now) self.new i) }
        ensures falls { OnOk result (work_left self.new ≤ work_left self.old) }
    {
        let woken = mem::replace(&mut self.waiting[p as usize], Vec::new(alloc));
        for k in &woken {
            self.settle(places, *k)?;
        }
        Ok(())
    }
}

/// The level of each task: its rank and one, or 0 for those on a cycle and behind one.
pub fn levels_of(alloc: Global, places: &[Vec<(u32, u32)>]) -> Result<Vec<u32>, AllocError>
    requires few { length places.now < 2 ^ 32 }
    requires inside { All (IsWithin (length places.now)) (rows_of places.now) }
    ensures levels { IfOk result (λ levels. IsLevelling (rows_of places.now) levels.items) }
    // A level is the rank and one.
    ensures ranks { IfOk result (λ levels. (k : ℕ) → k < length places.now → 0 < level levels.items k → HasRank (rows_of places.now) k (level levels.items k - 1)) }
    // No level comes only where the tasks cannot be numbered.
    ensures cycle { IfOk result (λ levels. (k : ℕ) → k < length places.now → level levels.items k ≡ 0 → ¬ IsNumbered (rows_of places.now)) }
{
    let mut work = Levelling {
        levels: vec![in alloc; 0u32; places.len()]?,
        waiting: empty_rows(alloc, places.len())?,
        ready: Vec::new(alloc),
    };
    for k in 0..places.len() {
        work.settle(places, k as u32)?;
    }
    while let Some(p) = work.ready.pop() {
        work.tell(alloc, places, p)?;
    }
    Ok(work.levels)
}
