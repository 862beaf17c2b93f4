//! Reading a matrix line by line.

ghost use Rattle.std.specs.Prelude.{◌≡◌, ◌<◌, ◌≤◌, ◌+◌, ◌*◌, List, length, map, Ok, IfOk, OnOk, IfSome, MatchOption, false};
ghost use Rattle.std.specs.Option.{option_map};
ghost use Rattle.apsp_graph.specs.Lines.{words_of};
ghost use Rattle.apsp_graph.specs.Numbers.{capped};
ghost use Rattle.apsp_graph.specs.Matrices.{Matrix, IsMatrix, is_size};
ghost use Rattle.apsp_graph.specs.Views.{matrix_of};
ghost use Rattle.apsp_graph.specs.Reading.{Gives, weight_of, row_from, rows_from, sizes_of, head_of, body_of, reading};
ghost use Rattle.apsp_graph.specs.Steps.{with_front, with_rows, capped_head, words_left, IsSizeOf};

use crate::fault::MatrixFault;
use crate::graph::PathGraph;
use crate::lines::{Lines, next_word};
use crate::numbers::number;
use crate::strikes::strikes;
use graph_model::FaultPlan;
use path_tasks::task_total;
use std::alloc::Global;

/// The greatest weight.
const HEAVIEST: u64 = 2_147_483_647;

/// The graph of the matrix that a text writes, and the plan of the strikes below it. The first fault decides, line by line
/// and in a line from the left.
pub fn read_matrix(alloc: Global, bytes: &[u8]) -> Result<(PathGraph, FaultPlan), MatrixFault>
    requires { length bytes.now ≤ 67108864 }
    // What is read is what the text stands for.
    ensures found { IfOk result (λ r. IsMatrix bytes.now (matrix_of r.0 r.1)) }
    // A text that stands for a matrix is read, unless memory runs out.
    ensures accepted { (m : Matrix) → IsMatrix bytes.now m → Gives (λ r. matrix_of r.0 r.1) result (Ok m) }
    // Each refusal, but for want of memory, comes exactly where it is the first fault.
    ensures first { Gives (λ r. matrix_of r.0 r.1) result (reading bytes.now) }
{
    read_lines(alloc, bytes)
}

fn read_lines(alloc: Global, bytes: &[u8]) -> Result<(PathGraph, FaultPlan), MatrixFault>
    requires { length bytes.now ≤ 67108864 }
    ensures { Gives (λ r. matrix_of r.0 r.1) result (reading bytes.now) }
{
    let (n, side, lines) = head(Lines::of(bytes))?;
    body(alloc, n, side, lines)
}

/// What stands below the first line, which gives the two numbers.
fn body(
    alloc: Global,
    n: u64,
    side: u64,
    lines: Lines,
) -> Result<(PathGraph, FaultPlan), MatrixFault>
    requires number { lines.number ≡ 2 }
    requires capped { n ≤ 4294967296 }
    ensures { Gives (λ r. matrix_of r.0 r.1) result (body_of n side (words_left lines.entry)) }
{
    let Some(size) = size_of(n, side) else {
        return Err(MatrixFault::Size);
    };
    let mut weights = Vec::new(alloc);
    let after = rows(lines, size.n, &mut weights)?;
    let top = u64::from(task_total(size.tiles) - 1);
    let plan = strikes(alloc, after, top)?;
    Ok((PathGraph::new(size.n, size.side, weights), plan))
}

/// Vertices, the side of a tile, and tiles a side.
#[derive(Clone, Copy)]
struct Size {
    n: u32,
    side: u32,
    tiles: u32,
}

/// The size, if it is within the limits.
#[tactic(auto, unfolding(crate::specs::Matrices::is_size))]
fn size_of(n: u64, side: u64) -> Option<Size>
    ensures { MatchOption result (is_size n side ≡ false) (λ s. IsSizeOf n side s.n s.side s.tiles) }
{
    if n > 512 {
        return None;
    }
    if side > 32 {
        return None;
    }
    if n < 1 {
        return None;
    }
    if side < 1 {
        return None;
    }
    let tiles = (n + side - 1) / side;
    if tiles > 16 {
        return None;
    }
    Some(Size {
        n: n as u32,
        side: side as u32,
        tiles: tiles as u32,
    })
}

/// The two numbers of the first line, and the lines after it.
#[tactic(auto, unfolding(crate::specs::Reading::head_of))]
fn head(lines: Lines) -> Result<(u64, u64, Lines), MatrixFault>
    ensures gives { Gives (λ x. ((x.0, x.1), words_left x.2)) result (capped_head (head_of (words_left lines.entry))) }
    ensures number { IfOk result (λ x. x.2.number ≡ lines.entry.number + 1) }
    ensures capped { IfOk result (λ x. x.0 ≤ 4294967296) }
{
    let Some((line, after)) = lines.next() else {
        return Err(MatrixFault::Head);
    };
    match sizes(line) {
        Some((n, side)) => Ok((n, side, after)),
        None => Err(MatrixFault::Head),
    }
}

#[tactic(auto, unfolding(crate::specs::Reading::sizes_of))]
fn sizes(line: &[u8]) -> Option<(u64, u64)>
    ensures gives { result ≡ option_map (λ s. (capped s.0, capped s.1)) (sizes_of (words_of line.now)) }
    ensures capped { IfSome result (λ s. s.0 ≤ 4294967296) }
{
    let (first, rest) = next_word(line)?;
    let (second, rest) = next_word(rest)?;
    if next_word(rest).is_some() {
        return None;
    }
    Some((number(first)?, number(second)?))
}

/// Appends n rows of n weights, and answers the lines after them.
fn rows<'a>(
    lines: Lines<'a>,
    n: u32,
    weights: &mut Vec<Option<u32>>,
) -> Result<Lines<'a>, MatrixFault>
    requires { lines.number ≡ 2 }
    ensures gives { Gives (λ x. (weights.new.items, words_left x)) result (with_rows weights.old.items (rows_from n 0 n (words_left lines.entry))) }
    ensures number { IfOk result (λ x. x.number ≡ n + 2) }
    ensures length { OnOk result (length weights.new.items ≡ length weights.old.items + n * n) }
{
    let mut at = lines;
    for i in 0..n {
        let Some((line, after)) = at.next() else {
            return Err(MatrixFault::Line { line: at.number });
        };
        row(line, at.number, n, i, weights)?;
        at = after;
    }
    Ok(at)
}

/// Appends the weights of row i. The one on the diagonal is 0.
fn row(
    line: &[u8],
    number: u32,
    n: u32,
    i: u32,
    weights: &mut Vec<Option<u32>>,
) -> Result<(), MatrixFault>
    ensures gives { Gives (λ _. weights.new.items) result (with_front weights.old.items (row_from number i 0 n (words_of line.now))) }
    ensures length { OnOk result (length weights.new.items ≡ length weights.old.items + n) }
{
    let mut rest = line;
    for j in 0..n {
        let Some((word, after)) = next_word(rest) else {
            return Err(MatrixFault::Line { line: number });
        };
        let weight = weight(word, number)?;
        weights.push(if i == j { Some(0) } else { weight })?;
        rest = after;
    }
    match next_word(rest) {
        Some(_) => Err(MatrixFault::Line { line: number }),
        None => Ok(()),
    }
}

#[tactic(auto, unfolding(crate::specs::Reading::weight_of))]
fn weight(word: &[u8], line: u32) -> Result<Option<u32>, MatrixFault>
    ensures { Gives (λ x. x) result (weight_of line word.now) }
{
    if word == b"-".as_slice() {
        return Ok(None);
    }
    match number(word) {
        Some(value) => {
            if value > HEAVIEST {
                Err(MatrixFault::Weight { line })
            } else {
                Ok(Some(value as u32))
            }
        }
        None => Err(MatrixFault::Line { line }),
    }
}
