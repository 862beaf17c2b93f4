//! From a source to a graph and a plan.

ghost use Rattle.std.specs.Prelude.{◌≡◌, ◌≢◌};
ghost use Rattle.acyclic_audit.specs.Meaning.{IsInLimits};
ghost use Rattle.graph_reader.specs.declared.fault.TextFault.TheVariants as text;
ghost use Rattle.graph_runner.specs.Accepting.{Accepts};
ghost use Rattle.graph_runner.specs.Loading.{Loads, Takes};
ghost use Rattle.graph_runner.specs.Opening.{Opens};
ghost use Rattle.graph_runner.specs.Endings.{audit_ending, text_ending};

use crate::ending::Ending;
use acyclic_audit::{AuditFault, FileGraph, audit};
use graph_model::{FaultPlan, Text};
use graph_reader::{TextFault, read_graph};
use io_edge::{ReadEnd, Source, read_all};
use raw_graph::{INPUT_BYTES, RawGraph};
use std::alloc::Global;

// What a fault of the text comes to.
fn text_ending(fault: TextFault) -> Ending
    ensures { result ≡ text_ending fault }
{
    match fault {
        TextFault::OutOfMemory => Ending::OutOfMemory,
        fault => Ending::Text { fault },
    }
}

// What a refusal of the graph comes to.
fn audit_ending(fault: AuditFault) -> Ending
    ensures { result ≡ audit_ending fault }
{
    match fault {
        AuditFault::OutOfMemory => Ending::OutOfMemory,
        fault => Ending::Audit { fault },
    }
}

/// All bytes of the source.
pub(crate) fn taken<S: Source>(alloc: Global, source: &mut S) -> Result<Text, Ending>
    ensures { Takes (record { left = S.left source.old; left_after = S.left source.new; faults = S.faults source.old; faults_after = S.faults source.new }) result }
{
    match read_all(alloc, source, INPUT_BYTES) {
        Ok(bytes) => Ok(bytes),
        Err(ReadEnd::Fault) => Err(Ending::ReadFault),
        Err(ReadEnd::TooLong) => Err(Ending::TooLong),
        Err(ReadEnd::OutOfMemory) => Err(Ending::OutOfMemory),
    }
}

/// The graph and the plan that the source holds.
pub(crate) fn load<S: Source>(
    alloc: Global,
    source: &mut S,
) -> Result<(RawGraph, FaultPlan), Ending>
    ensures { Loads (record { left = S.left source.old; left_after = S.left source.new; faults = S.faults source.old; faults_after = S.faults source.new }) result }
{
    let bytes = taken(alloc, source)?;
    match read_graph(alloc, bytes.as_slice()) {
        Ok(file) => Ok(file),
        Err(fault) => Err(text_ending(fault)),
    }
}

// The graph as a task graph, where it is accepted.
fn accept(alloc: Global, raw: RawGraph) -> Result<FileGraph, Ending>
    requires { IsInLimits raw.tasks.items raw.sink.0 }
    ensures { Accepts raw result }
{
    match audit(alloc, raw) {
        Ok(graph) => Ok(graph),
        Err(fault) => Err(audit_ending(fault)),
    }
}

/// The accepted graph and the plan that the source holds.
pub(crate) fn open<S: Source>(
    alloc: Global,
    source: &mut S,
) -> Result<(FileGraph, FaultPlan), Ending>
    ensures { Opens (record { left = S.left source.old; left_after = S.left source.new; faults = S.faults source.old; faults_after = S.faults source.new }) result }
{
    let (raw, plan) = load(alloc, source)?;
    let graph = accept(alloc, raw)?;
    Ok((graph, plan))
}
