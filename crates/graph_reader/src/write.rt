//! The writing of a graph file.

ghost use Rattle.std.specs.Prelude.{◌≡◌, IfOk};
ghost use Rattle.serde_json.specs.Written.{compact_text};
ghost use Rattle.raw_graph.specs.Graph.{file_with};
ghost use Rattle.raw_graph.specs.Limits.{IsWithinLimits};
ghost use Rattle.graph_reader.specs.Answers.{StandsFor, IsReadAs};
ghost use Rattle.graph_reader.specs.Written.{file_data};

use crate::data::file_value;
use graph_model::{FaultPlan, Text};
use raw_graph::RawGraph;
use std::alloc::{AllocError, Global};

/// The canonical text: compact JSON, the names in the order of their bytes.
pub fn write_graph(alloc: Global, raw: &RawGraph, plan: &FaultPlan) -> Result<Text, AllocError>
    requires { IsWithinLimits (file_with raw.now plan.now) }
    ensures text { IfOk result (λ text. text ≡ compact_text (file_data (file_with raw.now plan.now))) }
    // Reading it gives the same graph and plan.
    ensures stands { IfOk result (λ text. StandsFor text (file_with raw.now plan.now)) }
    ensures back { IfOk result (λ text. IsReadAs text (file_with raw.now plan.now)) }
{
    let value = file_value(alloc, raw, plan)?;
    Ok(Text::from_vec(value.to_vec(alloc)?))
}
