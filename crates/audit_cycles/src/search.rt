ghost use Rattle.std.specs.Prelude.{◌≡◌, ◌<◌, ℕ, length, All, IfOk, OnOk};
ghost use Rattle.audit_checks.specs.Rows.{rows_of, Names, IsWithin};
ghost use Rattle.audit_cycles.specs.Ancestors.{Reaches, IsSeen};
ghost use Rattle.audit_cycles.specs.Searching.{Sees};

use std::alloc::{AllocError, Global};

// Which tasks are seen, and those of them whose places are still to be looked at.
#[derive(Drop)]
pub struct Search {
    pub seen: Vec<bool>,
    pub left: Vec<u32>,
}

impl Search {
    // Sees task p, if it is new.
    pub fn see(&mut self, p: u32) -> Result<(), AllocError>
        requires { p < length self.old.seen.items }
        ensures here { OnOk result (IsSeen self.new.seen.items p) }
        ensures sees { OnOk result (Sees (λ k. k ≡ p) self.old.seen.items self.old.left.items self.new.seen.items self.new.left.items) }
    {
        if !self.seen[p as usize] {
            self.seen[p as usize] = true;
            self.left.push(p)?;
        }
        Ok(())
    }

    // Sees the tasks that are named.
    pub fn see_all(&mut self, named: &[(u32, u32)]) -> Result<(), AllocError>
        requires { IsWithin (length self.old.seen.items) named.now }
        ensures all { OnOk result ((p : ℕ) → Names named.now p → IsSeen self.new.seen.items p) }
        ensures sees { OnOk result (Sees (Names named.now) self.old.seen.items self.old.left.items self.new.seen.items self.new.left.items) }
    {
        for (p, _) in named {
            self.see(*p)?;
        }
        Ok(())
    }
}

/// Marks a task and all its ancestors: what its places name, what their places name, and so on.
pub fn ancestors(
    alloc: Global,
    places: &[Vec<(u32, u32)>],
    from: u32,
) -> Result<Vec<bool>, AllocError>
    requires from { from < length places.now }
    requires inside { All (IsWithin (length places.now)) (rows_of places.now) }
    ensures long { IfOk result (λ seen. length seen.items ≡ length places.now) }
    ensures sound { IfOk result (λ seen. (k : ℕ) → IsSeen seen.items k → Reaches (rows_of places.now) from k) }
    ensures complete { IfOk result (λ seen. (k : ℕ) → Reaches (rows_of places.now) from k → IsSeen seen.items k) }
{
    let mut search = Search {
        seen: vec![in alloc; false; places.len()]?,
        left: Vec::new(alloc),
    };
    search.see(from)?;
    while let Some(k) = search.left.pop() {
        search.see_all(places[k as usize].as_slice())?;
    }
    Ok(search.seen)
}
