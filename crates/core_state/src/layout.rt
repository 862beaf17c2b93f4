ghost use Rattle.std.specs.Prelude.{◌≡◌, IfOk};
ghost use Rattle.graph_model.specs.Graph.{IsTask};
ghost use Rattle.core_state.specs.Shapes.{IsLayoutOf, IsWidest, SameLayout, edges_of, words_of};

use super::words::PORTS_PER_WORD;
use graph_model::{Key, TaskGraph};
use std::alloc::{AllocError, Global};

/// The measures of a table: its rows, the notify words of a row, and the cells of its blocks, of which the last is the root's.
#[derive(Debug, Drop)]
pub struct Layout {
    pub rows: u32,
    pub words_per_row: u32,
    pub cells: Vec<usize>,
}

/// The successor edges of a task, the root's on the sink counted.
pub(crate) fn edge_count<G: TaskGraph>(graph: &G, key: Key) -> u32
    requires { IsTask (G.graph graph.now) key.0 }
    ensures { result ≡ edges_of (G.graph graph.now) key.0 }
{
    graph.succ_count(key) + u32::from(key == graph.sink())
}

/// The notify words of a task.
pub(crate) fn notify_words<G: TaskGraph>(graph: &G, key: Key) -> u32
    requires { IsTask (G.graph graph.now) key.0 }
    ensures { result ≡ words_of (G.graph graph.now) key.0 }
{
    let edges = edge_count(graph, key);
    edges.div_ceil(PORTS_PER_WORD).max(1)
}

fn widest<G: TaskGraph>(graph: &G) -> u32
    ensures { IsWidest (G.graph graph.now) result }
{
    let mut widest = 1;
    for i in 0..graph.task_count() {
        widest = notify_words(graph, graph.task(i)).max(widest);
    }
    widest
}

impl Layout {
    /// The layout of the table of a graph.
    pub fn of<G: TaskGraph>(alloc: Global, graph: &G) -> Result<Layout, AllocError>
        ensures { IfOk result (λ x. IsLayoutOf (G.graph graph.now) x) }
    {
        let blocks = graph.block_count();
        let mut cells = Vec::with_capacity(alloc, blocks as usize + 1)?;
        for block in 0..blocks {
            cells.push(graph.cells(block))?;
        }
        cells.push(graph.cells(graph.block(graph.sink()).block))?;
        Ok(Layout {
            rows: graph.task_count() + 1,
            words_per_row: widest(graph),
            cells,
        })
    }

    /// The same layout again.
    pub fn copy(&self) -> Result<Layout, AllocError>
        ensures { IfOk result (λ x. SameLayout self.now x) }
    {
        Ok(Layout {
            rows: self.rows,
            words_per_row: self.words_per_row,
            cells: self.cells.clone()?,
        })
    }
}
