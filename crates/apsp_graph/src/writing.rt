//! The matrix of least weights as text.

ghost use Rattle.std.specs.Prelude.{◌≡◌, ◌≤◌, ◌+◌, ◌*◌, ◌++◌, length, take, drop, IfOk, OnOk};
ghost use Rattle.path_tasks.specs.Paths.{tiles_of};
ghost use Rattle.apsp_graph.specs.Views.{sink_cells};
ghost use Rattle.apsp_graph.specs.Writing.{item_of, spaced, line_of, text_of};

use crate::graph::PathGraph;
use graph_model::Text;
use lane_kernels::NONE;
use std::alloc::{AllocError, Global};
use text_lines::put_signed;

/// The text of the least weights, a line for each vertex and an item for each vertex that it leads to: the weight, or `-`
/// where the cell is `NONE`. The cells are those of the sink's block, row by row; those of no vertex are left out.
pub fn matrix_text(alloc: Global, graph: &PathGraph, cells: &[i64]) -> Result<Text, AllocError>
    requires { length cells.now ≡ sink_cells graph.now }
    ensures { IfOk result (λ t. t ≡ text_of (tiles_of graph.now.n graph.now.side * graph.now.side) graph.now.n cells.now) }
{
    let n = graph.vertices() as usize;
    let wide = graph.tiles() as usize * graph.side() as usize;
    let mut text = Vec::new(alloc);
    for i in 0..n {
        push_row(&mut text, part(cells, i * wide, n))?;
    }
    Ok(Text::from_vec(text))
}

/// Appends a line.
fn push_row(text: &mut Vec<u8>, row: &[i64]) -> Result<(), AllocError>
    ensures { OnOk result (text.new.items ≡ text.old.items ++ line_of row.now) }
{
    if row.len() == 0 {
        text.push(b'\n')?;
        return Ok(());
    }
    push_weight(text, &row[0])?;
    push_spaced(text, &row[1..])?;
    text.push(b'\n')?;
    Ok(())
}

/// So many cells from a place on.
fn part(cells: &[i64], from: usize, count: usize) -> &[i64]
    requires { from + count ≤ length cells.now }
    ensures { result.now ≡ take count (drop from cells.now) }
{
    &cells[from..from + count]
}

/// Appends weights with a space before each.
fn push_spaced(text: &mut Vec<u8>, weights: &[i64]) -> Result<(), AllocError>
    ensures { OnOk result (text.new.items ≡ text.old.items ++ spaced weights.now) }
{
    for weight in weights {
        text.push(b' ')?;
        push_weight(text, weight)?;
    }
    Ok(())
}

#[tactic(auto, using(crate::proofs::WritingLemmas::item_some))]
fn push_weight(text: &mut Vec<u8>, weight: &i64) -> Result<(), AllocError>
    ensures { OnOk result (text.new.items ≡ text.old.items ++ item_of weight.now) }
{
    if *weight == NONE {
        text.push(b'-')?;
        return Ok(());
    }
    put_signed(text, *weight)
}
