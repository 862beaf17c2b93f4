//! The reading of a graph file.

ghost use Rattle.std.specs.Prelude.{◌^◌, ◌<◌, ◌≤◌, length, codes, All, IfErr, IfOk};
ghost use Rattle.serde_json.specs.View.{view};
ghost use Rattle.graph_reader.specs.Answers.{ReadsGraph};
ghost use Rattle.graph_reader.specs.Checks.{needed};
ghost use Rattle.graph_reader.specs.Content.{file_in};
ghost use Rattle.graph_reader.specs.Faults.{Answers, HasLinePath};
ghost use Rattle.graph_reader.specs.Format.{version_check, file_check};
ghost use Rattle.raw_graph.specs.Graph.{file_of, file_with};
ghost use Rattle.raw_graph.specs.Limits.{IsWithinLimits};

use crate::fault::{TextFault, at, missing};
use crate::fields::key_at;
use crate::kinds;
use crate::names::{Kind, check_names, check_object};
use crate::strikes::strikes_on;
use crate::tasks::tasks_at;
use graph_model::{FaultPlan, Strike};
use raw_graph::RawGraph;
use serde_json::Value;
use std::alloc::Global;

fn version(alloc: Global, value: &Value) -> Result<(), TextFault>
    ensures { Answers (λ u. u) (version_check (view value.now)) tt result }
{
    if kinds::number(alloc, value, 0, u64::MAX)? == 1 {
        Ok(())
    } else {
        Err(TextFault::Version)
    }
}

fn version_at(alloc: Global, value: &Value) -> Result<(), TextFault>
    ensures { Answers (λ u. u) (needed (codes "version") version_check (view value.now)) tt result }
{
    match value.get("version") {
        Some(found) => at(alloc, "version", version(alloc, found)),
        None => missing(alloc, "version"),
    }
}

fn file(alloc: Global, value: &Value) -> Result<(RawGraph, Vec<Strike>), TextFault>
    ensures answers { Answers file_of (file_check (view value.now)) (file_in (view value.now)) result }
    ensures within { IfOk result (λ r. IsWithinLimits (file_of r)) }
    ensures few { IfOk result (λ r. length r.1.items ≤ 4096) }
    ensures keys { IfOk result (λ r. All (λ strike. strike.key.0 < 2 ^ 63) r.1.items) }
{
    check_object(alloc, value)?;
    version_at(alloc, value)?;
    check_names(alloc, Kind::Whole, value)?;
    let sink = key_at(alloc, value, "sink")?;
    let tasks = tasks_at(alloc, value)?;
    let strikes = strikes_on(alloc, value, tasks.as_slice())?;
    Ok((RawGraph { sink, tasks }, strikes))
}

/// Reads a graph file of version 1: UTF-8 JSON.
pub fn read_graph(alloc: Global, bytes: &[u8]) -> Result<(RawGraph, FaultPlan), TextFault>
    // What the bytes stand for, or the first fault in the order of the checks.
    ensures answer { ReadsGraph bytes.now result }
    // The path of a refusal is one line of printable text.
    ensures line { IfErr result HasLinePath }
    // It can be written again.
    ensures within { IfOk result (λ r. IsWithinLimits (file_with r.0 r.1)) }
{
    let value = match Value::from_slice(alloc, bytes) {
        Ok(value) => value,
        Err(error) if error.is_memory() => return Err(TextFault::OutOfMemory),
        Err(_) => return Err(TextFault::NotJson),
    };
    let (graph, strikes) = file(alloc, &value)?;
    Ok((graph, FaultPlan::of(strikes)))
}
