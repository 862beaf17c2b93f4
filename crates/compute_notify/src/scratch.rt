//! Room for the inputs and the output of a task.
ghost use Rattle.std.specs.Prelude.{IfOk, IfSome, List, [], drop, length, max, take, ℕ, ℤ, ◌++◌, ◌+◌, ◌<◌, ◌∷◌, ◌≡◌, ◌≤◌};
ghost use Rattle.compute_notify.specs.Rooms.{HasRoom, IsEnough};
ghost use Rattle.core_state.specs.Asked.{InEachGraphOf, IsCoreKey};
ghost use Rattle.graph_model.specs.Gathered.{cells_in};

use core_state::{ROOT, Rooted};
use graph_model::{Inputs, Key, TaskGraph};
use std::alloc::{AllocError, Global};

/// Room for the inputs and the output of the widest task.
#[derive(Debug, Drop)]
pub struct Scratch {
    pub(crate) inputs: Inputs,
    // What was read last, or the output.
    pub(crate) cells: Vec<i64>,
}

/// What a task needs.
#[derive(Clone, Copy, Debug)]
struct Need {
    lists: u32,
    read: usize,
    longest: usize,
}

impl Need {
    // The need of a task that reads nothing.
    fn own<G: TaskGraph>(graph: &Rooted<'_, G>, key: Key) -> Need
        requires { IsCoreKey (G.graph graph.now.graph.now) key.0 }
        ensures { InEachGraphOf (G.graph graph.now.graph.now) (λ r. result ≡ record { lists = 0; read = 0; longest = r.cells (r.block key.0) }) }
    {
        Need {
            lists: 0,
            read: 0,
            longest: graph.cells(graph.block(key).block),
        }
    }

    // The need with one input more, or None where the cells can't be counted.
    fn with(self, len: usize) -> Option<Need>
        requires { self.lists < 40 }
        ensures { IfSome result (λ need. need ≡ record { lists = self.lists + 1; read = self.read + len; longest = max self.longest len }) }
    {
        Some(Need {
            lists: self.lists + 1,
            read: self.read.checked_add(len)?,
            longest: self.longest.max(len),
        })
    }

    // The need of a task, or None where its cells can't be counted.
    fn of<G: TaskGraph>(graph: &Rooted<'_, G>, key: Key) -> Option<Need>
        requires { IsCoreKey (G.graph graph.now.graph.now) key.0 }
        ensures { IfSome result (λ need. InEachGraphOf (G.graph graph.now.graph.now) (λ r. IsEnough r key.0 need)) }
    {
        let mut need = Need::own(graph, key);
        for place in 0..graph.pred_count(key) {
            if graph.is_input(key, place) {
                let input = graph.pred(key, place).key;
                need = need.with(graph.cells(graph.block(input).block))?;
            }
        }
        Some(need)
    }

    fn or(self, other: Need) -> Need
        ensures { result ≡ record { lists = max self.lists other.lists; read = max self.read other.read; longest = max self.longest other.longest } }
    {
        Need {
            lists: self.lists.max(other.lists),
            read: self.read.max(other.read),
            longest: self.longest.max(other.longest),
        }
    }

    // The need of the widest task.
    fn widest<G: TaskGraph>(graph: &G) -> Option<Need>
        ensures { IfSome result (λ need. InEachGraphOf (G.graph graph.now) (λ r. (k : ℕ) → IsCoreKey (G.graph graph.now) k → IsEnough r k need)) }
    {
        let rooted = Rooted::of(graph);
        let mut need = Need::of(&rooted, ROOT)?;
        for i in 0..graph.task_count() {
            need = need.or(Need::of(&rooted, graph.task(i))?);
        }
        Some(need)
    }
}

impl Scratch {
    /// Room for each task of the graph and for the root.
    pub fn new<G: TaskGraph>(alloc: Global, graph: &G) -> Result<Scratch, AllocError>
        ensures { IfOk result (λ scratch. HasRoom (G.graph graph.now) scratch) }
    {
        let need = Need::widest(graph).ok_or(AllocError)?;
        Ok(Scratch {
            inputs: Inputs::new(alloc, need.lists, need.read)?,
            cells: vec![in alloc; 0i64; need.longest]?,
        })
    }

    /// Keeps what was read as a further input.
    pub(crate) fn keep(&mut self, len: usize)
        requires inside { len ≤ length self.old.cells.items }
        requires list { length self.old.inputs.lists < self.old.inputs.most_lists }
        requires room { cells_in self.old.inputs.lists + len ≤ self.old.inputs.most_cells }
        ensures inputs { self.new.inputs ≡ record self.old.inputs { lists = self.old.inputs.lists ++ take len self.old.cells.items ∷ [] } }
        ensures cells { self.new.cells.items ≡ self.old.cells.items }
    {
        self.inputs.push(&self.cells[..len]);
    }

    /// Makes the one input the output.
    pub(crate) fn pass_on(&mut self)
        requires one { (input : List ℤ) × (self.old.inputs.lists ≡ input ∷ []) × (length input ≤ length self.old.cells.items) }
        ensures inputs { self.new.inputs ≡ self.old.inputs }
        ensures cells { (input : List ℤ) → self.old.inputs.lists ≡ input ∷ [] → take (length input) self.new.cells.items ≡ input }
        ensures length { length self.new.cells.items ≡ length self.old.cells.items }
    {
        put(&mut self.cells, self.inputs.get(0));
    }
}

// Writes a list over the first cells.
fn put(cells: &mut [i64], from: &[i64])
    requires { length from.now ≤ length cells.old }
    ensures { cells.new ≡ from.now ++ drop (length from.now) cells.old }
{
    cells[..from.len()].copy_from_slice(from);
}
