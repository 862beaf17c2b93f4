ghost use Rattle.std.specs.Prelude.{◌≡◌, ◌<◌, ◌≤◌, ◌↔◌, IsTrue};
ghost use Rattle.graph_model.specs.Graph.{IsTask};
ghost use Rattle.graph_model.specs.declared.graph.Kind.TheVariants.{Data};
ghost use Rattle.core_state.specs.Asked.{IsCoreKey, InEachGraphOf, InSomeGraphOf};

use super::layout::{edge_count, notify_words};
use graph_model::{Edge, Key, Kind, Place, TaskGraph};
use std::alloc::AllocError;

/// The key of the hidden task whose one input is the sink.
pub const ROOT: Key = Key(1 << 63);

/// A graph together with its hidden root.
pub struct Rooted<'a, G> {
    graph: &'a G,
}

impl<G> Clone for Rooted<'_, G> {
    fn clone(&self) -> Result<Self, AllocError> {
        Ok(*self)
    }
}

impl<G> Copy for Rooted<'_, G> {}

impl<'a, G: TaskGraph> Rooted<'a, G> {
    pub fn of(graph: &'a G) -> Self
        ensures { result.graph.now ≡ graph.now }
    {
        Rooted { graph }
    }

    /// The number of places.
    pub fn pred_count(&self, key: Key) -> u32
        requires { IsCoreKey (G.graph self.now.graph.now) key.0 }
        ensures { InEachGraphOf (G.graph self.now.graph.now) (λ r. result ≡ r.places key.0) }
    {
        if key == ROOT {
            1
        } else {
            self.graph.pred_count(key)
        }
    }

    /// The predecessor at a place, and the port there. The root's is the sink, at the port behind its last.
    pub fn pred(&self, key: Key, place: u32) -> Edge
        requires key { IsCoreKey (G.graph self.now.graph.now) key.0 }
        requires place { InSomeGraphOf (G.graph self.now.graph.now) (λ r. place < r.places key.0) }
        ensures task { IsTask (G.graph self.now.graph.now) result.key.0 }
        ensures pred { InEachGraphOf (G.graph self.now.graph.now) (λ r. r.pred key.0 place ≡ record { task = result.key.0; port = result.port }) }
        ensures kind { InEachGraphOf (G.graph self.now.graph.now) (λ r. (result.kind ≡ Data) ↔ (place < r.inputs key.0)) }
    {
        if key == ROOT {
            let sink = self.graph.sink();
            Edge {
                key: sink,
                kind: Kind::Data,
                port: self.graph.succ_count(sink),
            }
        } else {
            self.graph.pred(key, place)
        }
    }

    /// Whether a place is there and its predecessor's cells are read.
    pub fn is_input(&self, key: Key, place: u32) -> bool
        requires { IsCoreKey (G.graph self.now.graph.now) key.0 }
        ensures { InEachGraphOf (G.graph self.now.graph.now) (λ r. IsTrue result ↔ (place < r.inputs key.0)) }
    {
        place < self.pred_count(key) && self.pred(key, place).kind == Kind::Data
    }

    /// The number of ports.
    pub fn succ_count(&self, key: Key) -> u32
        requires { IsCoreKey (G.graph self.now.graph.now) key.0 }
        ensures { InEachGraphOf (G.graph self.now.graph.now) (λ r. result ≡ r.ports key.0) }
    {
        if key == ROOT {
            0
        } else {
            edge_count(self.graph, key)
        }
    }

    /// The successor at a port, and the place there. The sink's last is the root.
    pub fn succ(&self, key: Key, port: u32) -> (Key, u32)
        requires key { IsCoreKey (G.graph self.now.graph.now) key.0 }
        requires port { InSomeGraphOf (G.graph self.now.graph.now) (λ r. port < r.ports key.0) }
        ensures key { IsCoreKey (G.graph self.now.graph.now) result.0.0 }
        ensures succ { InEachGraphOf (G.graph self.now.graph.now) (λ r. r.succ key.0 port ≡ record { task = result.0.0; place = result.1 }) }
    {
        if key == self.graph.sink() && port == self.graph.succ_count(key) {
            (ROOT, 0)
        } else {
            self.graph.succ(key, port)
        }
    }

    /// The number of notify words.
    pub fn notify_words(&self, key: Key) -> u32
        requires { IsCoreKey (G.graph self.now.graph.now) key.0 }
        ensures { InEachGraphOf (G.graph self.now.graph.now) (λ r. result ≡ r.notify_words key.0) }
    {
        if key == ROOT {
            1
        } else {
            notify_words(self.graph, key)
        }
    }

    /// What the key writes. The root's block is the last.
    pub fn block(&self, key: Key) -> Place
        requires { IsCoreKey (G.graph self.now.graph.now) key.0 }
        ensures inside { result.block ≤ (G.graph self.now.graph.now).block_count }
        ensures block { InEachGraphOf (G.graph self.now.graph.now) (λ r. result.block ≡ r.block key.0) }
        ensures version { InEachGraphOf (G.graph self.now.graph.now) (λ r. result.version ≡ r.version key.0) }
    {
        if key == ROOT {
            Place {
                block: self.graph.block_count(),
                version: 1,
            }
        } else {
            self.graph.block(key)
        }
    }

    /// The cells of a block. The root's has those of the sink's.
    pub fn cells(&self, block: u32) -> usize
        requires { block ≤ (G.graph self.now.graph.now).block_count }
        ensures { InEachGraphOf (G.graph self.now.graph.now) (λ r. result ≡ r.cells block) }
    {
        if block == self.graph.block_count() {
            let sink = self.graph.sink();
            self.graph.cells(self.graph.block(sink).block)
        } else {
            self.graph.cells(block)
        }
    }
}
