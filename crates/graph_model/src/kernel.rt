ghost use Rattle.std.specs.Prelude.{◌≡◌, ◌↔◌, ◌+◌, ◌<◌, ◌≤◌, ℕ, ℤ, List, [], ◌∷◌, ◌++◌, Option, Some, length, slice_get, get_or, IfOk, OnOk};
ghost use Rattle.std.specs.List.{flat_map};
ghost use Rattle.graph_model.specs.Notes.{Note, noted};
ghost use Rattle.graph_model.specs.Gathered.{cells_in, pieces, IsRising};

use super::key::Key;
use std::alloc::{AllocError, Global};
use std::marker::{Model, Send};

/// Lists of cells, in room that was taken before.
#[derive(Debug, Drop)]
pub struct Inputs {
    cells: Vec<i64>,
    // Where each list ends in `cells`.
    ends: Vec<usize>,
    most_lists: u32,
    most_cells: usize,
}

impl Model for Inputs {
    ghost use Rattle.std.specs.Prelude.{◌≤◌, ◌<◌, ◌^◌, length, vec_capacity};
    ghost use Rattle.graph_model.specs.Gathered.{Gathered, pieces, IsRising};

    ghost Value = { Gathered };

    ghost view = { λ i. record { lists = pieces 0 i.ends.items i.cells.items; most_lists = i.most_lists; most_cells = i.most_cells } };

    ghost invariant = { λ i. IsRising 0 i.ends.items (length i.cells.items) × (length i.ends.items ≤ i.most_lists)
        × (length i.cells.items ≤ i.most_cells) × (i.most_lists ≤ vec_capacity i.ends) × (i.most_cells ≤ vec_capacity i.cells) × (i.most_lists < 2 ^ 32) };
}

// The i-th piece: it begins where the one before it ends.
fn piece_of<'a>(cells: &'a [i64], ends: &[usize], i: usize) -> &'a [i64]
    requires place { i < length ends.now }
    requires rising { IsRising 0 ends.now (length cells.now) }
    ensures { slice_get (pieces 0 ends.now cells.now) i ≡ Some result.now }
{
    let start = start_of(ends, i);
    let end = ends[i];
    &cells[start..end]
}

fn start_of(ends: &[usize], i: usize) -> usize
    requires { i < length ends.now }
    ensures { result ≡ get_or (0 ∷ ends.now) i 0 }
{
    if i == 0 { 0 } else { ends[i - 1] }
}

impl Inputs {
    /// Holds nothing, and has room for so many lists with so many cells together.
    pub fn new(alloc: Global, lists: u32, cells: usize) -> Result<Inputs, AllocError>
        ensures { IfOk result (λ inputs. inputs ≡ record { lists = []; most_lists = lists; most_cells = cells }) }
    {
        Ok(Inputs {
            cells: Vec::with_capacity(alloc, cells)?,
            ends: Vec::with_capacity(alloc, lists as usize)?,
            most_lists: lists,
            most_cells: cells,
        })
    }

    /// How many lists are held.
    #[tactic(auto, using(crate::proofs::Pieces::length_pieces))]
    pub fn count(&self) -> u32
        ensures { result ≡ length self.now.lists }
    {
        self.ends.len() as u32
    }

    /// The i-th list.
    #[tactic(auto, using(crate::proofs::Pieces::length_pieces))]
    pub fn get(&self, i: u32) -> &[i64]
        requires { i < length self.now.lists }
        ensures { slice_get self.now.lists i ≡ Some result.now }
    {
        piece_of(&self.cells, &self.ends, i as usize)
    }

    /// All cells, list behind list.
    pub fn cells(&self) -> &[i64]
        ensures { result.now ≡ flat_map (λ cells. cells) self.now.lists }
    {
        self.cells.as_slice()
    }

    /// Gives the whole room back.
    pub fn clear(&mut self)
        ensures { self.new ≡ record self.old { lists = [] } }
    {
        self.cells.clear();
        self.ends.clear();
    }

    /// Appends a copy of a list.
    pub fn push(&mut self, cells: &[i64])
        requires list { length self.old.lists < self.old.most_lists }
        requires cells { cells_in self.old.lists + length cells.now ≤ self.old.most_cells }
        ensures { self.new ≡ record self.old { lists = self.old.lists ++ cells.now ∷ [] } }
    {
        let _ = self.cells.extend_from_slice(cells);
        let _ = self.ends.push(self.cells.len());
    }
}

/// Computes the cells of a task from those of its data predecessors.
pub trait Kernel: Send {
    // The cells of a task, by the lists of its data predecessors.
    ghost outcome: { Self → ℕ → List (List ℤ) → List ℤ };

    // Which lists a task can be computed from.
    ghost fits: { Self → ℕ → List (List ℤ) → Type 0 };

    // The calls so far, where it tells them.
    ghost calls: { Self → Option (List Note) };

    // How many calls it can take without memory.
    ghost spare: { Self → ℕ };

    /// Makes room for `n` calls.
    fn reserve(&mut self, n: u32) -> Result<(), AllocError>
        ensures room { OnOk result (n ≤ spare self.new) }
        ensures same_calls { calls self.new ≡ calls self.old }
        ensures same_outcome { outcome self.new ≡ outcome self.old }
        ensures same_fits { (task : ℕ) (lists : List (List ℤ)) → fits self.new task lists ↔ fits self.old task lists };

    /// Writes the cells of a task to `out`.
    fn compute(&mut self, key: Key, life: u32, inputs: &Inputs, out: &mut [i64])
        requires room { 1 ≤ spare self.old }
        requires fits { fits self.old key.0 inputs.now.lists }
        requires cells { length out.old ≡ length (outcome self.old key.0 inputs.now.lists) }
        ensures outcome { out.new ≡ outcome self.old key.0 inputs.now.lists }
        ensures noted { calls self.new ≡ noted (calls self.old) (key.0, life) }
        ensures room { spare self.old ≤ spare self.new + 1 }
        ensures same_outcome { outcome self.new ≡ outcome self.old }
        ensures same_fits { (task : ℕ) (lists : List (List ℤ)) → fits self.new task lists ↔ fits self.old task lists };
}
