//! The words that tell faults of texts, graphs and matrices.

ghost use Rattle.std.specs.Prelude.{◌≡◌, ◌++◌, OnOk};
ghost use Rattle.run_records.specs.Text.{cause_text};
ghost use Rattle.graph_runner.specs.Messages.{audit_text, block_text, formula_text, matrix_text, round_text, shown_fault, spent_text, task_text};

use apsp_graph::MatrixFault;
use audit_checks::AuditFault;
use formula_text::FormulaFault;
use graph_model::{Cause, Key, Text};
use graph_reader::TextFault;
use run_records::cause_text;
use std::alloc::{AllocError, Global};
use text_lines::{put, put_field};

fn put_formula(text: &mut Vec<u8>, fault: FormulaFault) -> Result<(), AllocError>
    ensures { OnOk result (text.new.items ≡ text.old.items ++ formula_text fault) }
{
    match fault {
        FormulaFault::Char { place } => put_field(
            text,
            ": unexpected character at ",
            u64::from(place),
        ),
        FormulaFault::End => put(text, ": ends too early"),
        FormulaFault::Extra { place } => put_field(text, ": unexpected rest at ", u64::from(place)),
        FormulaFault::Number { place } => put_field(
            text,
            ": number too large at ",
            u64::from(place),
        ),
        FormulaFault::Input { place } => put_field(text, ": bad input at ", u64::from(place)),
        FormulaFault::Deep => put(text, ": nested deeper than 64"),
        FormulaFault::Long => put(text, ": longer than 4096 bytes"),
        FormulaFault::OutOfMemory => put(text, ": out of memory"),
    }
}

// Appends words and the path of a place.
fn put_place(text: &mut Vec<u8>, words: &str, path: &Text) -> Result<(), AllocError>
    ensures { OnOk result (text.new.items ≡ text.old.items ++ (words.now ++ path.now)) }
{
    put(text, words)?;
    text.extend_from_slice(path.as_slice())
}

/// Appends why bytes are no graph file.
pub(crate) fn put_text_fault(text: &mut Vec<u8>, fault: &TextFault) -> Result<(), AllocError>
    ensures { OnOk result (text.new.items ≡ text.old.items ++ shown_fault fault.now) }
{
    match fault {
        TextFault::NotJson => put(text, "not JSON"),
        TextFault::Shape { path } => put_place(text, "bad shape at ", path),
        TextFault::Range { path } => put_place(text, "out of range at ", path),
        TextFault::Formula { task, fault } => {
            put_field(text, "formula of task ", task.0)?;
            put_formula(text, *fault)
        }
        TextFault::TooManyTasks => put(text, "more than 16384 tasks"),
        TextFault::Version => put(text, "unknown version"),
        TextFault::OutOfMemory => put(text, "out of memory"),
    }
}

// Appends a fault of a block's versions.
fn put_block_fault(
    text: &mut Vec<u8>,
    block: u32,
    words: &str,
    version: u32,
    end: &str,
) -> Result<(), AllocError>
    ensures { OnOk result (text.new.items ≡ text.old.items ++ block_text block words.now version end.now) }
{
    put_field(text, "block ", u64::from(block))?;
    put_field(text, words, u64::from(version))?;
    put(text, end)
}

// Appends a fault of a task, with a number.
fn put_task_fault(
    text: &mut Vec<u8>,
    task: u64,
    words: &str,
    number: u64,
    end: &str,
) -> Result<(), AllocError>
    ensures { OnOk result (text.new.items ≡ text.old.items ++ task_text task words.now number end.now) }
{
    put_field(text, "task ", task)?;
    put_field(text, words, number)?;
    put(text, end)
}

/// Appends words round a number.
pub(crate) fn put_round(
    text: &mut Vec<u8>,
    words: &str,
    number: u64,
    end: &str,
) -> Result<(), AllocError>
    ensures { OnOk result (text.new.items ≡ text.old.items ++ round_text words.now number end.now) }
{
    put_field(text, words, number)?;
    put(text, end)
}

/// Appends why a graph is not accepted.
pub(crate) fn put_audit_fault(text: &mut Vec<u8>, fault: AuditFault) -> Result<(), AllocError>
    ensures { OnOk result (text.new.items ≡ text.old.items ++ audit_text fault) }
{
    match fault {
        AuditFault::DuplicateKey { key } => put_round(text, "task ", key.0, " stands twice"),
        AuditFault::UnknownKey { task, key } => {
            put_task_fault(text, task.0, " names unknown task ", key.0, "")
        }
        AuditFault::NoSink { key } => put_round(text, "sink ", key.0, " is no task"),
        AuditFault::TooManyPreds { task, count } => {
            put_task_fault(text, task.0, " has ", count, " predecessors")
        }
        AuditFault::TooManySuccs { task, count } => {
            put_task_fault(text, task.0, " has ", count, " successors")
        }
        AuditFault::Cycle { key } => put_round(text, "cycle through task ", key.0, ""),
        AuditFault::VersionTwice { block, version } => {
            put_block_fault(text, block, " has version ", version, " twice")
        }
        AuditFault::VersionGap { block, version } => {
            put_block_fault(text, block, " has no version ", version, "")
        }
        AuditFault::VersionOrder { block, version } => put_block_fault(
            text,
            block,
            ": the writer of version ",
            version,
            " is not before the next",
        ),
        AuditFault::ReaderNotBefore { reader, writer } => put_task_fault(
            text,
            reader.0,
            " reads what task ",
            writer.0,
            " overwrites and is not before it",
        ),
        AuditFault::InputCount { task, input } => {
            put_task_fault(text, task.0, " has no input ", input as u64, "")
        }
        AuditFault::OutOfMemory => put(text, "out of memory"),
    }
}

/// Appends why a text is no matrix.
pub(crate) fn put_matrix_fault(text: &mut Vec<u8>, fault: MatrixFault) -> Result<(), AllocError>
    ensures { OnOk result (text.new.items ≡ text.old.items ++ matrix_text fault) }
{
    match fault {
        MatrixFault::Head => put(text, "bad first line"),
        MatrixFault::Size => put(text, "bad size"),
        MatrixFault::Line { line } => put_field(text, "bad line ", u64::from(line)),
        MatrixFault::Weight { line } => put_field(
            text,
            "weight too large in line ",
            u64::from(line),
        ),
        MatrixFault::Fault { line } => put_field(text, "bad fault in line ", u64::from(line)),
        MatrixFault::OutOfMemory => put(text, "out of memory"),
    }
}

// Appends why a life was replaced.
fn put_cause(alloc: Global, text: &mut Vec<u8>, cause: &Cause) -> Result<(), AllocError>
    ensures { OnOk result (text.new.items ≡ text.old.items ++ cause_text cause.now) }
{
    text.extend_from_slice(cause_text(alloc, cause)?.as_slice())
}

/// Appends which life of a task was the last, and what ended it.
pub(crate) fn put_spent(
    alloc: Global,
    text: &mut Vec<u8>,
    key: Key,
    life: u32,
    cause: &Cause,
) -> Result<(), AllocError>
    ensures { OnOk result (text.new.items ≡ text.old.items ++ spent_text key life cause.now) }
{
    put_task_fault(text, key.0, " has no life after ", u64::from(life), ": ")?;
    put_cause(alloc, text, cause)
}
