//! What each task makes of its inputs. Nothing here takes memory.

ghost use Rattle.std.specs.Prelude.{◌≡◌, ◌+◌, ◌*◌, ◌<◌, ◌≤◌, ℕ, All, EachIndex, length};
ghost use Rattle.lane_kernels.specs.MinPlus.{IsNonNegative, at, min_plus_of, closed};
ghost use Rattle.path_tasks.specs.Tasks.{inputs as input_count};
ghost use Rattle.apsp_graph.specs.Blocked.{edge, loaded, nth, tile_made, beside, task_made};
ghost use Rattle.apsp_graph.specs.Kernels.{path_outcome, AreInputs, FitsPath};

use crate::graph::PathGraph;
use graph_model::{Inputs, Key};
use lane_kernels::{close_tile, min_plus};
use path_tasks::{Part, Task, part_of};

/// Writes the cells of a task.
pub fn compute_task(graph: &PathGraph, key: Key, inputs: &Inputs, out: &mut [i64])
    requires fits { FitsPath graph.now key.0 inputs.now.lists }
    requires cells { length out.old ≡ length (path_outcome graph.now key.0 inputs.now.lists) }
    ensures { out.new ≡ path_outcome graph.now key.0 inputs.now.lists }
{
    match graph.task_at(key) {
        Task::Tile(t, i, j) => compute_tile(graph, part_of(t, i, j), i, j, inputs, out),
        Task::Gather(_) => gather(graph.tiles() as usize, graph.side() as usize, inputs, out),
        Task::Sink => out.copy_from_slice(inputs.cells()),
    }
}

// Writes tile (i, j), which is this part of its round.
fn compute_tile(graph: &PathGraph, part: Part, i: u32, j: u32, inputs: &Inputs, out: &mut [i64])
    requires row { i < 16 }
    requires column { j < 16 }
    requires inputs { AreInputs (input_count part) (graph.now.side * graph.now.side) inputs.now.lists }
    requires square { length out.old ≡ graph.now.side * graph.now.side }
    ensures { out.new ≡ tile_made graph.now.n graph.now.side graph.now.weights.items i j part inputs.now.lists }
{
    let side = graph.side() as usize;
    match part {
        Part::Load => load(graph, i, j, out),
        Part::Pivot => close(side, inputs, out),
        Part::Row => update(side, inputs, 1, 0, out),
        Part::Column => update(side, inputs, 0, 1, out),
        Part::Rest => update(side, inputs, 1, 2, out),
    }
}

// Writes the weights of the edges from the vertices of a row of tiles to those of a column.
fn load(graph: &PathGraph, row: u32, column: u32, out: &mut [i64])
    requires row { row < 16 }
    requires column { column < 16 }
    requires square { length out.old ≡ graph.now.side * graph.now.side }
    ensures { out.new ≡ loaded graph.now.n graph.now.side graph.now.weights.items row column }
{
    let side = graph.side();
    for p in 0..side {
        let start = (p * side) as usize;
        load_row(
            graph,
            row * side + p,
            column * side,
            &mut out[start..start + side as usize],
        );
    }
}

// Writes the weights of the edges from a vertex to the vertices from another one on.
fn load_row(graph: &PathGraph, from: u32, first: u32, out: &mut [i64])
    requires from { from < 512 }
    requires first { first < 512 }
    requires few { length out.old ≤ 32 }
    ensures { EachIndex out.new (λ q. at out.new q ≡ edge graph.now.n graph.now.weights.items from (first + q)) }
{
    for q in 0..out.len() {
        out[q] = graph.edge(from, first + q as u32);
    }
}

// The list at a place.
fn input(inputs: &Inputs, i: u32) -> &[i64]
    requires inside { i < length inputs.now.lists }
    requires weights { All IsNonNegative inputs.now.lists }
    ensures value { result.now ≡ nth inputs.now.lists i }
    ensures weights { IsNonNegative result.now }
    ensures cells { (cells : ℕ) → All (λ xs. length xs ≡ cells) inputs.now.lists → length result.now ≡ cells }
{
    inputs.get(i)
}

// Writes the first list, closed.
fn close(side: usize, inputs: &Inputs, out: &mut [i64])
    requires from_one { 1 ≤ side }
    requires to_32 { side ≤ 32 }
    requires inputs { AreInputs 1 (side * side) inputs.now.lists }
    requires square { length out.old ≡ side * side }
    ensures { out.new ≡ closed side (nth inputs.now.lists 0) }
{
    out.copy_from_slice(input(inputs, 0));
    close_tile(out, side);
}

// Writes the first list, or the product of the lists at two places where that is less.
fn update(side: usize, inputs: &Inputs, left: u32, right: u32, out: &mut [i64])
    requires from_one { 1 ≤ side }
    requires to_32 { side ≤ 32 }
    requires some { 0 < length inputs.now.lists }
    requires left { left < length inputs.now.lists }
    requires right { right < length inputs.now.lists }
    requires sized { All (λ xs. length xs ≡ side * side) inputs.now.lists }
    requires weights { All IsNonNegative inputs.now.lists }
    requires square { length out.old ≡ side * side }
    ensures { out.new ≡ min_plus_of side (nth inputs.now.lists 0) (nth inputs.now.lists left) (nth inputs.now.lists right) }
{
    out.copy_from_slice(input(inputs, 0));
    min_plus(out, input(inputs, left), input(inputs, right), side);
}

// Writes b tiles side by side.
fn gather(b: usize, side: usize, inputs: &Inputs, out: &mut [i64])
    requires from_one { 1 ≤ side }
    requires to_32 { side ≤ 32 }
    requires some { 1 ≤ b }
    requires few { b ≤ 16 }
    requires inputs { AreInputs b (side * side) inputs.now.lists }
    requires whole { length out.old ≡ side * (b * side) }
    ensures { out.new ≡ beside b side inputs.now.lists }
{
    for row in 0..side {
        for tile in 0..b {
            let start = row * (b * side) + tile * side;
            let cells = input(inputs, tile as u32);
            out[start..start + side].copy_from_slice(&cells[row * side..row * side + side]);
        }
    }
}
