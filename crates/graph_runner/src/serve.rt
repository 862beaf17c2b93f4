//! What the commands that run nothing make of what a source holds.

ghost use Rattle.std.specs.Prelude.{◌≡◌, ◌++◌, IfOk, OnOk};
ghost use Rattle.acyclic_audit.specs.Reaching.{IsReachedCount};
ghost use Rattle.graph_runner.specs.Serving.{Checks, Prints, check_text, line_of};

use crate::ending::Ending;
use crate::load::{load, open};
use graph_model::{TaskGraph, Text};
use graph_reader::write_graph;
use io_edge::Source;
use std::alloc::{AllocError, Global};
use text_lines::{put, put_field};

/// Appends words, a number and a newline.
pub(crate) fn put_line(text: &mut Vec<u8>, words: &str, number: u64) -> Result<(), AllocError>
    ensures { OnOk result (text.new.items ≡ text.old.items ++ line_of words.now number) }
{
    put_field(text, words, number)?;
    put(text, "\n")
}

// The four lines of `check`.
fn check_lines(
    alloc: Global,
    tasks: u32,
    reachable: u32,
    blocks: u32,
    faults: u32,
) -> Result<Text, AllocError>
    ensures { IfOk result (λ text. text ≡ check_text tasks reachable blocks faults) }
{
    let mut text = Vec::new(alloc);
    put_line(&mut text, "tasks ", u64::from(tasks))?;
    put_line(&mut text, "reachable ", u64::from(reachable))?;
    put_line(&mut text, "blocks ", u64::from(blocks))?;
    put_line(&mut text, "faults ", u64::from(faults))?;
    Ok(Text::from_vec(text))
}

/// Checks the graph that the source holds.
pub(crate) fn checked<S: Source>(alloc: Global, source: &mut S) -> Result<Text, Ending>
    ensures { Checks (record { left = S.left source.old; left_after = S.left source.new; faults = S.faults source.old; faults_after = S.faults source.new }) result }
{
    let (graph, plan) = open(alloc, source)?;
    let reachable = graph.reachable(alloc)?;
    let text = check_lines(
        alloc,
        graph.task_count(),
        reachable,
        graph.block_count(),
        plan.len(),
    )?;
    Ok(text)
}

/// The canonical text of what the source holds.
pub(crate) fn printed<S: Source>(alloc: Global, source: &mut S) -> Result<Text, Ending>
    ensures { Prints (record { left = S.left source.old; left_after = S.left source.new; faults = S.faults source.old; faults_after = S.faults source.new }) result }
{
    let (raw, plan) = load(alloc, source)?;
    let mut text = write_graph(alloc, &raw, &plan)?;
    text.push(b'\n')?;
    Ok(text)
}
