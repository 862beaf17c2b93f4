//! Rows at which a job may be posted.
use std::alloc::{AllocError, Global};
use std::marker::Model;

/// Row numbers, the newest last. There is room for four, and no call but `new` takes memory.
#[derive(Debug, Drop)]
pub struct Hints {
    rows: Vec<u32>,
}

impl Model for Hints {
    ghost use Rattle.std.specs.Prelude.{◌≤◌, List, ℕ, vec_capacity};

    ghost Value = { List ℕ };

    ghost view = { λ h. h.rows.items };

    ghost invariant = { λ h. 4 ≤ vec_capacity h.rows };
}

impl Hints {
    ghost use Rattle.std.specs.Prelude.{◌≡◌, ◌<◌, ◌++◌, [], ◌∷◌, length, IfOk, MatchOption};

    /// No rows, and room for four.
    pub fn new(alloc: Global) -> Result<Hints, AllocError>
        ensures { IfOk result (λ h. h ≡ []) }
    {
        let mut rows = Vec::new(alloc);
        rows.reserve(4)?;
        Ok(Hints { rows })
    }

    /// Puts the row last.
    pub fn push(&mut self, row: u32)
        requires { length self.old < 4 }
        ensures { self.new ≡ self.old ++ row ∷ [] }
    {
        self.rows.push_reserved(row);
    }

    /// Takes the last row, if there is one.
    pub fn pop(&mut self) -> Option<u32>
        ensures { MatchOption result ((self.new ≡ []) × (self.old ≡ [])) (λ row. self.old ≡ self.new ++ row ∷ []) }
    {
        self.rows.pop()
    }
}
