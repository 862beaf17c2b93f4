ghost use Rattle.std.specs.Prelude.{◌≡◌, count_by};
ghost use Rattle.std.proofs.Props.{props};
ghost use Rattle.graph_model.specs.Graph.{IsLawful};
ghost use Rattle.acyclic_audit.specs.FileGraphs.{IsWhole, graph_of};

use crate::findings::Findings;
use audit_checks::KeyIndex;
use audit_cycles::ancestors;
use formula_text::Formula;
use graph_model::{Edge, Key, Kind, Place, TaskGraph};
use raw_graph::RawTask;
use std::alloc::{AllocError, Global};

/// An accepted graph of a file.
///
/// A call that takes a key finds the task by its distance from the first key, else by the key's hash, and else by a binary
/// search. All else takes constant time, but for `needed` and `reachable`, which follow each edge once.
#[derive(Drop)]
pub struct FileGraph {
    keys: Vec<u64>,
    index: KeyIndex,
    tasks: Vec<RawTask>,
    found: Findings,
    ghost whole: { IsWhole keys.items tasks.items found } by { Prim.hlevel props },
    ghost lawful: { IsLawful (graph_of keys.items tasks.items found) } by { Prim.hlevel props },
}

impl TaskGraph for FileGraph {
    ghost graph = { λ g. graph_of g.keys.items g.tasks.items g.found };

    ghost lawful = { λ g. g.lawful };

    fn sink(&self) -> Key {
        Key(self.keys[self.found.sink as usize])
    }

    fn has(&self, key: Key) -> bool {
        self.index.find(self.keys.as_slice(), key.0).is_some()
    }

    fn task_count(&self) -> u32 {
        self.keys.len() as u32
    }

    fn task(&self, i: u32) -> Key {
        Key(self.keys[i as usize])
    }

    fn block_count(&self) -> u32 {
        self.found.blocks.count
    }

    fn pred_count(&self, key: Key) -> u32 {
        self.found.links.places[self.number(key)].len() as u32
    }

    fn pred(&self, key: Key, j: u32) -> Edge {
        let k = self.number(key);
        let (p, port) = self.found.links.places[k][j as usize];
        let is_data = (j as usize) < self.tasks[k].inputs.len();
        Edge {
            key: Key(self.keys[p as usize]),
            kind: if is_data { Kind::Data } else { Kind::Order },
            port,
        }
    }

    fn succ_count(&self, key: Key) -> u32 {
        self.found.links.succs[self.number(key)].len() as u32
    }

    fn succ(&self, key: Key, port: u32) -> (Key, u32) {
        let (k, j) = self.found.links.succs[self.number(key)][port as usize];
        (Key(self.keys[k as usize]), j)
    }

    fn block(&self, key: Key) -> Place {
        self.found.blocks.places[self.number(key)]
    }

    fn cells(&self, _block: u32) -> usize {
        1
    }

    fn rank(&self, key: Key) -> u32 {
        self.found.levels[self.number(key)] - 1
    }
}

impl FileGraph {
    ghost use Rattle.std.specs.Prelude.{◌≡◌, ◌<◌, ℕ, IfOk, length};
    ghost use Rattle.formula_text.specs.Formulas.{tree};
    ghost use Rattle.formula_text.specs.Trees.{HasInputs};
    ghost use Rattle.graph_model.specs.Graph.{IsLawful, IsTask};
    ghost use Rattle.audit_checks.specs.ByKey.{number_in};
    ghost use Rattle.acyclic_audit.specs.FileGraphs.{IsWhole, graph_of, tree_in};
    ghost use Rattle.acyclic_audit.specs.Views.{graph, tree_at};
    ghost use Rattle.graph_model.specs.Reaching.{AreFlags};
    ghost use Rattle.acyclic_audit.specs.Reaching.{IsReachedCount};

    // The graph that the findings tell.
    pub(crate) fn of(
        keys: Vec<u64>,
        index: KeyIndex,
        tasks: Vec<RawTask>,
        found: Findings,
    ) -> FileGraph
        requires whole { IsWhole keys.items tasks.items found }
        requires lawful { IsLawful (graph_of keys.items tasks.items found) }
        ensures graph { graph result ≡ graph_of keys.items tasks.items found }
        ensures trees { (k : ℕ) → tree_at result k ≡ tree_in keys.items tasks.items k }
    {
        FileGraph {
            keys,
            index,
            tasks,
            found,
        }
    }

    // The row of a task.
    fn number(&self, key: Key) -> usize
        requires { IsTask (graph self.now) key.0 }
        ensures is { result ≡ number_in (graph self.now).keys key.0 }
        ensures inside { result < length (graph self.now).keys }
    {
        self.index.number_of(self.keys.as_slice(), key.0)
    }

    /// The formula of a task.
    pub fn formula(&self, key: Key) -> &Formula
        requires { IsTask (graph self.now) key.0 }
        ensures tree { tree result.now ≡ tree_at self.now key.0 }
        ensures inputs { HasInputs (tree result.now) ((graph self.now).inputs key.0) }
    {
        &self.tasks[self.number(key)].formula
    }

    /// By task in ascending order of keys: whether the sink needs it. It needs itself.
    pub fn needed(&self, alloc: Global) -> Result<Vec<bool>, AllocError>
        ensures { IfOk result (λ flags. AreFlags (graph self.now) flags.items) }
    {
        ancestors(alloc, self.found.links.places.as_slice(), self.found.sink)
    }

    /// How many tasks the sink needs, itself among them.
    pub fn reachable(&self, alloc: Global) -> Result<u32, AllocError>
        ensures { IfOk result (λ n. IsReachedCount (graph self.now) n) }
    {
        let seen = self.needed(alloc)?;
        Ok(count_set(seen.as_slice()) as u32)
    }
}

// How many flags are set.
fn count_set(flags: &[bool]) -> usize
    ensures { result ≡ count_by (λ flag. flag) flags.now }
{
    flags.iter().filter(|flag| **flag).count()
}
