//! The graph of a matrix.

ghost use Rattle.std.specs.Prelude.{◌≡◌, ◌+◌, ◌-◌, ◌*◌, ◌/◌, ◌<◌, ◌≤◌, length};

use graph_model::{Edge, Key, Kind, Place, TaskGraph};
use lane_kernels::NONE;
use path_tasks::{Task, key_of, task_of, task_total};

/// The most vertices.
pub const MOST_VERTICES: u32 = 512;

/// The widest tile.
pub const WIDEST_TILE: u32 = 32;

/// The tasks of blocked Floyd-Warshall over n vertices in tiles of `side` by `side` weights. Keys, blocks and edges are
/// computed from the number of tiles.
#[derive(Debug, Drop)]
pub struct PathGraph {
    n: u32,
    side: u32,
    // Row by row, none for no edge.
    weights: Vec<Option<u32>>,
    ghost some: { 1 ≤ n },
    ghost few: { n ≤ 512 },
    ghost wide: { 1 ≤ side },
    ghost narrow: { side ≤ 32 },
    ghost tiled: { (n + side - 1) / side ≤ 16 },
    ghost square: { length weights.items ≡ n * n },
}

impl PathGraph {
    ghost use Rattle.path_tasks.specs.Keys.{task_of};
    ghost use Rattle.apsp_graph.specs.Blocked.{edge};
    ghost use Rattle.apsp_graph.specs.Views.{graph, sink_cells};
    ghost use Rattle.path_tasks.specs.Paths.{tiles_of};
    ghost use Rattle.path_tasks.specs.Tasks.{IsTask};
    ghost use Rattle.graph_model.specs.Graph.{IsTask as IsKey};

    /// The graph of n times n weights, row by row.
    pub fn new(n: u32, side: u32, weights: Vec<Option<u32>>) -> PathGraph
        requires some { 1 ≤ n }
        requires few { n ≤ 512 }
        requires wide { 1 ≤ side }
        requires narrow { side ≤ 32 }
        requires tiled { tiles_of n side ≤ 16 }
        requires square { length weights.items ≡ n * n }
        ensures n { result.n ≡ n }
        ensures side { result.side ≡ side }
        ensures weights { result.weights.items ≡ weights.items }
    {
        PathGraph { n, side, weights }
    }

    /// How many vertices there are.
    pub fn vertices(&self) -> u32
        ensures { result ≡ self.now.n }
    {
        self.n
    }

    /// The side of a tile.
    pub fn side(&self) -> u32
        ensures { result ≡ self.now.side }
    {
        self.side
    }

    /// The weights from each vertex to each, row by row: none where there is no edge, and 0 on the diagonal of what was read.
    pub fn weights(&self) -> &[Option<u32>]
        ensures { result.now ≡ self.now.weights.items }
    {
        self.weights.as_slice()
    }

    /// How many tiles a side there are.
    #[tactic(auto, using(path_tasks::proofs::Tiles::tiles_some))]
    pub fn tiles(&self) -> u32
        ensures value { result ≡ tiles_of self.now.n self.now.side }
        ensures from_one { 1 ≤ result }
        ensures to_widest { result ≤ 16 }
    {
        (self.n + self.side - 1) / self.side
    }

    /// How many cells the sink's block has: whole tiles, so more than n squared where side does not divide n.
    #[tactic(auto, using(crate::proofs::WritingLemmas::whole_cells))]
    pub fn sink_cells(&self) -> usize
        ensures { result ≡ sink_cells self.now }
    {
        let b = self.tiles() as usize;
        let side = self.side as usize;
        b * b * (side * side)
    }

    // From a vertex to a vertex. From n on there are no edges, and the weight to oneself is 0.
    pub(crate) fn edge(&self, from: u32, to: u32) -> i64
        ensures { result ≡ edge self.now.n self.now.weights.items from to }
    {
        if from < self.n && to < self.n {
            match self.weights[(from * self.n + to) as usize] {
                Some(weight) => i64::from(weight),
                None => NONE,
            }
        } else if from == to {
            0
        } else {
            NONE
        }
    }

    // The task of a key.
    pub(crate) fn task_at(&self, key: Key) -> Task
        requires { IsKey (graph self.now) key.0 }
        ensures value { result ≡ task_of (tiles_of self.now.n self.now.side) key.0 }
        ensures known { IsTask (tiles_of self.now.n self.now.side) result }
    {
        task_of(self.tiles(), key.0)
    }
}

impl TaskGraph for PathGraph {
    ghost use Rattle.path_tasks.specs.Paths.{tiles_of};
    ghost use Rattle.path_tasks.proofs.Lawful.{is_lawful};
    ghost use Rattle.path_tasks.proofs.Tiles.{tiles_some};
    ghost use Rattle.apsp_graph.specs.Views.{graph as tasks_of};

    ghost graph = { λ s. tasks_of s };

    fn sink(&self) -> Key {
        Key(key_of(self.tiles(), Task::Sink))
    }

    fn has(&self, key: Key) -> bool {
        key.0 < u64::from(task_total(self.tiles()))
    }

    fn task_count(&self) -> u32 {
        task_total(self.tiles())
    }

    fn task(&self, i: u32) -> Key {
        Key(u64::from(i))
    }

    fn block_count(&self) -> u32 {
        let b = self.tiles();
        b * b + b + 1
    }

    fn pred_count(&self, key: Key) -> u32 {
        path_tasks::pred_count(self.tiles(), self.task_at(key))
    }

    fn pred(&self, key: Key, j: u32) -> Edge {
        let b = self.tiles();
        let task = self.task_at(key);
        let end = path_tasks::pred(b, task, j);
        Edge {
            key: Key(key_of(b, end.task)),
            kind: if j < path_tasks::input_count(b, task) {
                Kind::Data
            } else {
                Kind::Order
            },
            port: end.at,
        }
    }

    fn succ_count(&self, key: Key) -> u32 {
        path_tasks::succ_count(self.tiles(), self.task_at(key))
    }

    fn succ(&self, key: Key, port: u32) -> (Key, u32) {
        let b = self.tiles();
        let end = path_tasks::succ(b, self.task_at(key), port);
        (Key(key_of(b, end.task)), end.at)
    }

    fn block(&self, key: Key) -> Place {
        let b = self.tiles();
        match self.task_at(key) {
            Task::Tile(t, i, j) => Place {
                block: i * b + j,
                version: t + 1,
            },
            Task::Gather(i) => Place {
                block: b * b + i,
                version: 1,
            },
            Task::Sink => Place {
                block: b * b + b,
                version: 1,
            },
        }
    }

    fn cells(&self, block: u32) -> usize {
        let b = self.tiles() as usize;
        let block = block as usize;
        let tile = self.side as usize * self.side as usize;
        if block < b * b {
            tile
        } else if block < b * b + b {
            b * tile
        } else {
            b * b * tile
        }
    }

    fn rank(&self, key: Key) -> u32 {
        path_tasks::rank(self.tiles(), self.task_at(key))
    }

    ghost lawful = { λ s. is_lawful (tiles_of s.n s.side) s.side (tiles_some s.n s.side s.some s.wide) s.tiled };
}
